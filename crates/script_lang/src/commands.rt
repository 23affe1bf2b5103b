//! What a line of a script asks, as a value: of an index, or where none is there.

ghost use Rattle.std.specs.Prelude.{◌≡◌};
ghost use Rattle.script_lang.specs.Seen.{request_of, first_request_of};

use point_codec::{Name, Point, Points, View};
use ring_parity::Rings;
use std::marker::Model;

/// Positions of segments, as a script tells them.
#[derive(Drop)]
pub struct Positions {
    list: Vec<u32>,
}

impl Model for Positions {
    ghost use Rattle.std.specs.Prelude.{List, ℕ};

    ghost Value = { List ℕ };

    ghost view = { λ a. a.list.items };
}

impl Positions {
    /// These positions, in their order.
    pub fn new(list: Vec<u32>) -> Positions
        ensures { result ≡ list.items }
    {
        Positions { list }
    }

    pub fn as_slice(&self) -> &[u32]
        ensures { result.now ≡ self.now }
    {
        &self.list
    }
}

/// What a line asks of an index of `D` dimensions.
#[derive(Drop)]
pub enum Command<const D: usize> {
    /// A line without words, or a note.
    Blank,
    /// An index of `dims` dimensions, 1 to 8, with at most `leaf_size` points in a leaf.
    Create {
        dims: u8,
        leaf_size: u16,
    },
    /// A document with these points.
    Add(Points<D>),
    /// The document of this number goes.
    Delete(u32),
    /// The documents with a point in the box go.
    DeleteBox {
        lo: Point<D>,
        hi: Point<D>,
    },
    /// Which documents have a point in the box.
    InBox {
        view: View,
        lo: Point<D>,
        hi: Point<D>,
    },
    /// Which documents have a point in the polygon.
    Polygon {
        view: View,
        rings: Rings,
    },
    /// Which `k` documents, 1 to 10,000, are nearest to `at`.
    Nearest {
        view: View,
        k: u16,
        at: Point<D>,
    },
    Flush,
    Merge,
    /// A merge of the segments at these positions begins.
    MergeBegin(Positions),
    MergeEnd,
    Snapshot(Name),
    Release(Name),
    Commit,
    Reopen,
}

/// What a line asks where no index is there.
#[derive(Clone, Copy, PartialEq, Eq, Debug)]
pub enum First {
    /// A line without words, or a note.
    Blank,
    /// An index of `dims` dimensions, 1 to 8, with at most `leaf_size` points in a leaf.
    Create { dims: u8, leaf_size: u16 },
}

impl<const D: usize> From<First> for Command<D> {
    ghost from_gives = { λ first command. request_of command ≡ first_request_of first };

    fn from(first: First) -> Command<D> {
        match first {
            First::Blank => Command::Blank,
            First::Create { dims, leaf_size } => Command::Create { dims, leaf_size },
        }
    }
}
