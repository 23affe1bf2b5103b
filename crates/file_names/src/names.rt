//! The list of the names of a set's files: new ones join it at its end, and removed ones leave it.

ghost use Rattle.std.specs.Prelude.{◌≡◌, ◌<◌, ◌≤◌, [], ◌∷◌, ◌++◌, true, false, not, filter, IfOk, OnOk, OnErr};
ghost use Rattle.std.specs.Fn.{CalledAt};
ghost use Rattle.std.specs.List.Retain.{IsFiltered};
ghost use Rattle.outer_io.specs.declared.file_name.FileName.{FileName};
ghost use Rattle.outer_io.specs.declared.file_name.FileName.TheVariants.{Segment, Live};
ghost use Rattle.outer_io.specs.Names.{same_name};
ghost use Rattle.file_names.specs.Names.{is_named, AreBelow, IsBelow, IsNextId, IsNextGeneration};

use crate::free::{has, next_generation, next_id};
use outer_io::FileName;
use std::alloc::{AllocError, Global};
use std::marker::Model;

/// The error of a call for which no memory could be had.
pub type Memory = AllocError;

/// The names of the files that a set of segments took over from a commit or began to write, and hasn't removed; and
/// the id of the next segment. The ids of the segments in the list are below it.
#[derive(Drop)]
pub struct FileNames {
    names: Vec<FileName>,
    next_segment: u64,
}

impl Model for FileNames {
    ghost use Rattle.file_names.specs.Names.{NameList, AreBelow};

    ghost Value = { NameList };

    ghost view = { λ n. record { names = n.names.items; next_segment = n.next_segment } };

    ghost invariant = { λ n. AreBelow (record { names = n.names.items; next_segment = n.next_segment }) };
}

impl FileNames {
    /// No names, of an index that has no commit. The first segment's id will be 0.
    pub fn new(alloc: Global) -> FileNames
        ensures { result ≡ record { names = []; next_segment = 0 } }
    {
        FileNames::of_commit(alloc, 0)
    }

    /// No names yet, where a commit says the id of the next segment. Its files are still to be added.
    pub fn of_commit(alloc: Global, next_segment: u64) -> FileNames
        ensures { result ≡ record { names = []; next_segment = next_segment } }
    {
        FileNames {
            names: Vec::new(alloc),
            next_segment,
        }
    }

    /// The id that a commit gives as that of the next segment. All segments in the list are below it.
    pub fn next_segment(&self) -> u64
        ensures value { result ≡ self.now.next_segment }
        ensures below { AreBelow self.now }
    {
        self.next_segment
    }

    /// Whether the list has this name.
    pub fn has(&self, name: &FileName) -> bool
        ensures { result ≡ is_named self.now.names name.now }
    {
        has(self.names.as_slice(), name)
    }

    /// The names in the order in which they joined.
    pub fn as_slice(&self) -> &[FileName]
        ensures { result.now ≡ self.now.names }
    {
        self.names.as_slice()
    }

    /// Puts a file of a commit behind the names.
    pub fn add(&mut self, name: FileName) -> Result<(), Memory>
        requires { IsBelow self.old.next_segment name }
        ensures named { OnOk result (self.new.names ≡ self.old.names ++ name ∷ []) }
        ensures joins { OnOk result (is_named self.new.names name ≡ true) }
        ensures stays { (other : FileName) → is_named self.old.names other ≡ true
            → is_named self.new.names other ≡ true }
        ensures next { self.new.next_segment ≡ self.old.next_segment }
        ensures refused { OnErr result (self.new ≡ self.old) }
    {
        self.names.push(name)?;
        Ok(())
    }

    /// Names a new segment, and answers its id. Ids are given in turn, whatever becomes of the file; at the end of
    /// the type the least one that isn't named is given.
    pub fn name_segment(&mut self) -> Result<u64, Memory>
        ensures fresh { IfOk result (λ id. is_named self.old.names (Segment id) ≡ false) }
        ensures named { IfOk result (λ id. self.new.names ≡ self.old.names ++ Segment id ∷ []) }
        ensures joins { IfOk result (λ id. is_named self.new.names (Segment id) ≡ true) }
        ensures stays { (other : FileName) → is_named self.old.names other ≡ true
            → is_named self.new.names other ≡ true }
        ensures next { IfOk result (λ id. IsNextId self.old id self.new.next_segment) }
        ensures below { IfOk result (λ id. id < self.new.next_segment) }
        ensures later { self.old.next_segment ≤ self.new.next_segment }
        ensures refused { OnErr result (self.new ≡ self.old) }
    {
        self.names.reserve(1)?;
        let (id, next) = next_id(self.names.as_slice(), self.next_segment);
        self.names.push_reserved(FileName::Segment(id));
        self.next_segment = next;
        Ok(id)
    }

    /// Names the next live bits of a segment, and answers their generation: 1 for the first, then one more than the
    /// greatest in the list; at the end of the type the least one that the list doesn't have for the segment.
    pub fn name_live(&mut self, segment: u64) -> Result<u64, Memory>
        ensures fresh { IfOk result (λ generation. is_named self.old.names (Live segment generation) ≡ false) }
        ensures named { IfOk result (λ generation. self.new.names ≡ self.old.names ++ Live segment generation ∷ []) }
        ensures joins { IfOk result (λ generation. is_named self.new.names (Live segment generation) ≡ true) }
        ensures stays { (other : FileName) → is_named self.old.names other ≡ true
            → is_named self.new.names other ≡ true }
        ensures rule { IfOk result (IsNextGeneration (λ n. is_named self.old.names (Live segment n))) }
        ensures next { self.new.next_segment ≡ self.old.next_segment }
        ensures refused { OnErr result (self.new ≡ self.old) }
    {
        self.names.reserve(1)?;
        let generation = next_generation(self.names.as_slice(), segment);
        self.names.push_reserved(FileName::Live {
            segment,
            generation,
        });
        Ok(generation)
    }

    /// Takes out a name, wherever it stands.
    pub fn remove(&mut self, name: &FileName)
        ensures names { self.new.names ≡ filter (λ n. not (same_name n name.now)) self.old.names }
        ensures next { self.new.next_segment ≡ self.old.next_segment }
    {
        self.names.retain(|n| !n.is(name));
    }

    /// Takes out each name for which the closure says false. As in `Vec::retain` it is called once for each name, in
    /// order.
    pub fn retain<F: FnMut(&FileName) -> bool>(&mut self, keep: F)
        requires { F.IsAlwaysCallable keep }
        ensures kept { IsFiltered (CalledAt F.FnMut) keep self.old.names self.new.names }
        ensures next { self.new.next_segment ≡ self.old.next_segment }
    {
        self.names.retain(keep);
    }
}
