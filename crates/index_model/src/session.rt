//! A session over a list in memory.

ghost use Rattle.std.specs.Prelude.{◌≡◌, ◌≤◌, ◌<◌, ◌+◌, List, ℕ};
ghost use Rattle.documents.specs.Documents.{hits};
ghost use Rattle.script_lang.specs.Requests as asks;
ghost use Rattle.script_lang.specs.Seen.{request_of};
ghost use Rattle.index_model.specs.State.{Index, new_index};
ghost use Rattle.index_model.specs.Step.{Done, step_on, add_outcome, snapshot_outcome, release_outcome, done_ok};

use crate::held::{HeldSnapshot, delete, delete_in, is_live, release, snapshot_of};
use cell_relate::BoxShape;
use documents::{HeldDocument, Memory, scan_hits};
use point_codec::{MOST_POINTS, Name, Point, Points};
use script_lang::{Command, Refusal, put_deleted, put_doc, put_ok};
use std::alloc::Global;
use std::marker::Model;

/// What became of a command.
#[derive(Clone, Copy, PartialEq, Eq, Debug)]
pub enum Applied {
    Done,
    Refused(Refusal),
}

/// An index of `D` dimensions, kept as a list of documents in memory. A query scans the list.
#[derive(Drop)]
pub struct ListSession<const D: usize> {
    pub(crate) leaf_size: u16,
    next: u32,
    points_given: u32,
    pub(crate) docs: Vec<HeldDocument<D>>,
    pub(crate) snapshots: Vec<HeldSnapshot<D>>,
    begun: bool,
}

impl<const D: usize> Model for ListSession<D> {
    ghost use Rattle.index_model.specs.State.{Index};
    ghost use Rattle.index_model.specs.Sessions.{AreGiven};

    ghost Value = { Index };

    ghost view = { λ s. record {
      dims = D;
      leaf_size = s.leaf_size;
      next = s.next;
      points_given = s.points_given;
      docs = s.docs.items;
      snapshots = s.snapshots.items;
      begun = s.begun;
    } };

    ghost invariant = { λ s. AreGiven s.next s.points_given s.docs.items };
}

#[tactic(auto, unfolding(crate::specs::Step::step_on))]
impl<const D: usize> ListSession<D> {
    ghost use Rattle.index_model.specs.Sessions.{Does};

    /// A new index without documents.
    pub fn new(alloc: Global, leaf_size: u16) -> ListSession<D>
        ensures { result ≡ new_index D leaf_size }
    {
        ListSession {
            leaf_size,
            next: 0,
            points_given: 0,
            docs: Vec::new(alloc),
            snapshots: Vec::new(alloc),
            begun: false,
        }
    }

    /// How many dimensions the points have.
    pub fn dims(&self) -> usize
        ensures dims { result ≡ D }
        ensures seen { self.now.dims ≡ D }
    {
        let _ = &self.leaf_size;
        D
    }

    /// Does what a command asks, and appends the answer to `out`. A refused command changes neither the session nor
    /// `out`.
    /// For want of memory the session is as before, and what was appended is not to be used.
    pub fn apply(
        &mut self,
        alloc: Global,
        c: &Command<D>,
        out: &mut Vec<u8>,
    ) -> Result<Applied, Memory>
        requires { D ≤ 8 }
        ensures { Does (step_on self.old (request_of c.now)) self.old self.new out.old.items out.new.items result }
    {
        match c {
            Command::Blank => Ok(Applied::Done),
            Command::Create {
                dims: _,
                leaf_size: _,
            } => Ok(Applied::Refused(Refusal::Exists)),
            Command::Add(points) => self.add(alloc, points, out),
            Command::Delete(doc) => self.delete(*doc, out),
            Command::DeleteBox { lo, hi } => self.delete_in(alloc, lo, hi, out),
            Command::InBox { view, lo, hi } => self.find(
                alloc,
                view,
                &mut BoxShape::new(*lo, *hi),
                out,
            ),
            Command::Polygon { view, rings } => self.find_in(alloc, view, rings, out),
            Command::Nearest { view, k, at } => self.nearest(alloc, view, *k, at, out),
            Command::Flush => done_ok(out),
            Command::Merge => done_ok(out),
            Command::MergeBegin(_) => self.merge_begin(out),
            Command::MergeEnd => self.merge_end(out),
            Command::Snapshot(name) => self.snapshot(alloc, name, out),
            Command::Release(name) => self.release(name, out),
            Command::Commit => done_ok(out),
            Command::Reopen => self.reopen(out),
        }
    }

    fn add(
        &mut self,
        alloc: Global,
        points: &Points<D>,
        out: &mut Vec<u8>,
    ) -> Result<Applied, Memory>
        requires { D ≤ 8 }
        ensures { Does (add_outcome points.now self.old) self.old self.new out.old.items out.new.items result }
    {
        let count = points.as_slice().len() as u32;
        if self.points_given + count > MOST_POINTS {
            return Ok(Applied::Refused(Refusal::Full));
        }
        put_doc(out, self.next)?;
        self.docs
            .push(HeldDocument::new(alloc, self.next, points)?)?;
        self.next += 1;
        self.points_given += count;
        Ok(Applied::Done)
    }

    fn delete(&mut self, doc: u32, out: &mut Vec<u8>) -> Result<Applied, Memory>
        requires { D ≤ 8 }
        ensures { Does (step_on self.old (asks.Delete doc)) self.old self.new out.old.items out.new.items result }
    {
        put_deleted(out, u32::from(is_live(self.docs.as_slice(), doc)))?;
        delete(&mut self.docs, doc);
        Ok(Applied::Done)
    }

    fn delete_in(
        &mut self,
        alloc: Global,
        lo: &Point<D>,
        hi: &Point<D>,
        out: &mut Vec<u8>,
    ) -> Result<Applied, Memory>
        requires { D ≤ 8 }
        ensures { Does
            (step_on self.old (asks.DeleteBox lo.now.c hi.now.c)) self.old self.new out.old.items out.new.items result }
    {
        let hits = scan_hits(alloc, self.docs.as_slice(), &mut BoxShape::new(*lo, *hi))?;
        put_deleted(out, hits.as_slice().len() as u32)?;
        delete_in(&mut self.docs, lo, hi);
        Ok(Applied::Done)
    }

    fn merge_begin(&mut self, out: &mut Vec<u8>) -> Result<Applied, Memory>
        ensures { (positions : List ℕ)
            → Does (step_on self.old (asks.MergeBegin positions)) self.old self.new out.old.items out.new.items result }
    {
        if self.begun {
            return Ok(Applied::Refused(Refusal::Begun));
        }
        put_ok(out)?;
        self.begun = true;
        Ok(Applied::Done)
    }

    fn merge_end(&mut self, out: &mut Vec<u8>) -> Result<Applied, Memory>
        ensures { Does (step_on self.old asks.MergeEnd) self.old self.new out.old.items out.new.items result }
    {
        if !self.begun {
            return Ok(Applied::Refused(Refusal::NotBegun));
        }
        put_ok(out)?;
        self.begun = false;
        Ok(Applied::Done)
    }

    fn snapshot(&mut self, alloc: Global, name: &Name, out: &mut Vec<u8>) -> Result<Applied, Memory>
        requires { D ≤ 8 }
        ensures { Does (snapshot_outcome name.now self.old) self.old self.new out.old.items out.new.items result }
    {
        if snapshot_of(self.snapshots.as_slice(), name).is_some() {
            return Ok(Applied::Refused(Refusal::NameTaken));
        }
        if self.snapshots.len() >= 16 {
            return Ok(Applied::Refused(Refusal::TooManySnapshots));
        }
        put_ok(out)?;
        self.snapshots
            .push(HeldSnapshot::of(alloc, *name, self.docs.as_slice())?)?;
        Ok(Applied::Done)
    }

    fn release(&mut self, name: &Name, out: &mut Vec<u8>) -> Result<Applied, Memory>
        ensures { Does (release_outcome name.now self.old) self.old self.new out.old.items out.new.items result }
    {
        if snapshot_of(self.snapshots.as_slice(), name).is_none() {
            return Ok(Applied::Refused(Refusal::UnknownSnapshot));
        }
        put_ok(out)?;
        release(&mut self.snapshots, name);
        Ok(Applied::Done)
    }

    fn reopen(&mut self, out: &mut Vec<u8>) -> Result<Applied, Memory>
        ensures { Does (step_on self.old asks.Reopen) self.old self.new out.old.items out.new.items result }
    {
        put_ok(out)?;
        self.snapshots.clear();
        self.begun = false;
        Ok(Applied::Done)
    }
}

ghost use Rattle.index_model.specs.Sessions.{Does};

/// Answers `ok`, where nothing changes.
fn done_ok(out: &mut Vec<u8>) -> Result<Applied, Memory>
    ensures { (i : Index) → Does (done_ok i) i i out.old.items out.new.items result }
{
    put_ok(out)?;
    Ok(Applied::Done)
}
