//! What a commit holds: the list of the segments of an index, with the numbers that hold for all of them.

ghost use Rattle.std.specs.Prelude.{◌≡◌};
ghost use Rattle.commit_list.specs.Commits.{CommitData, IsCommit};

use crate::listed::Listed;
use std::marker::Model;

/// The list of the segments of an index, with the numbers that hold for all of them. Contracts see the
/// numbers and the list, which meet the rules of `IsCommit`: 1 to 8 dimensions; a leaf size from 2 to the
/// greatest, `4000 / (4 + 4 * dims)`; a next document number of at most the points given, and those of at
/// most 16,777,216; at most 200 segments, with strictly ascending ids below the next id, 1 to 16,777,216
/// entries each, and no more live documents than entries.
#[derive(Debug, Drop)]
pub struct Commit {
    dims: u8,
    leaf_size: u16,
    next: u32,
    points_given: u32,
    next_segment: u64,
    listed: Vec<Listed>,
}

impl Model for Commit {
    ghost use Rattle.commit_list.specs.Commits.{CommitData, IsCommit};

    ghost Value = { CommitData };

    ghost use Rattle.commit_list.specs.Seen.{commit_data};

    ghost view = { commit_data };

    ghost invariant = { λ c. IsCommit (commit_data c) };
}

impl Commit {
    /// The commit of these numbers. Takes no memory.
    pub fn new(
        dims: u8,
        leaf_size: u16,
        next: u32,
        points_given: u32,
        next_segment: u64,
        listed: Vec<Listed>,
    ) -> Commit
        requires { IsCommit
            (record {
              dims = dims;
              leaf_size = leaf_size;
              next = next;
              points_given = points_given;
              next_segment = next_segment;
              listed
                  = listed.items;
            }) }
        ensures { result ≡ record {
          dims = dims;
          leaf_size = leaf_size;
          next = next;
          points_given = points_given;
          next_segment = next_segment;
          listed = listed.items;
        } }
    {
        Commit {
            dims,
            leaf_size,
            next,
            points_given,
            next_segment,
            listed,
        }
    }

    /// The number of dimensions, 1 to 8.
    pub fn dims(&self) -> u8
        ensures value { result ≡ self.now.dims }
        ensures commit { IsCommit self.now }
    {
        self.dims
    }

    /// The greatest number of entries of a leaf.
    pub fn leaf_size(&self) -> u16
        ensures value { result ≡ self.now.leaf_size }
        ensures commit { IsCommit self.now }
    {
        self.leaf_size
    }

    /// The number of the next document, which is at most the number of points given.
    pub fn next(&self) -> u32
        ensures value { result ≡ self.now.next }
        ensures commit { IsCommit self.now }
    {
        self.next
    }

    /// How many points were ever added.
    pub fn points_given(&self) -> u32
        ensures value { result ≡ self.now.points_given }
        ensures commit { IsCommit self.now }
    {
        self.points_given
    }

    /// The id of the next segment, which is above those of all listed ones.
    pub fn next_segment(&self) -> u64
        ensures value { result ≡ self.now.next_segment }
        ensures commit { IsCommit self.now }
    {
        self.next_segment
    }

    /// The segments, by ascending id.
    pub fn listed(&self) -> &[Listed]
        ensures value { result.now ≡ self.now.listed }
        ensures commit { IsCommit self.now }
    {
        self.listed.as_slice()
    }
}
