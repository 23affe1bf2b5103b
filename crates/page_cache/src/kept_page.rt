//! A page that is kept, with notes of leaves that were read in it.

ghost use Rattle.std.specs.Prelude.{◌≡◌, ◌⊎◌, IsTrue, Some, Contains, length};
ghost use Rattle.page_cache.specs.declared.leaf_part.LeafPart.{LeafPart};
ghost use Rattle.page_cache.specs.Keys.{fresh};
ghost use Rattle.page_cache.specs.Notes.{AllFit, Fits};

use crate::leaf_part::LeafPart;
use crate::note::LeafNote;
use page_file::PageBytes;
use std::marker::Model;

/// A page that is kept. Contracts see the page, and the leaves of it that were told to be dead. Other notes come and
/// go unseen.
#[derive(Drop)]
pub struct KeptPage {
    page: Box<PageBytes>,
    // beside the page's key, since a search among dead leaves looks at nothing else
    dead: [Option<LeafPart>; 8],
    notes: [LeafNote; 4],
    ghost fit: { ∥ AllFit notes page.value.b ∥₁ },
}

impl Model for KeptPage {
    ghost use Rattle.page_cache.specs.Keys.{KeptData};

    ghost Value = { KeptData };

    ghost view = { λ k. record { page = k.page; dead = k.dead } };
}

impl KeptPage {
    /// The page as it came, no leaf of which is noted.
    pub fn new(page: Box<PageBytes>) -> KeptPage
        ensures { result ≡ fresh page }
    {
        KeptPage {
            page,
            dead: [None; 8],
            notes: [LeafNote::empty(); 4],
        }
    }

    /// The bytes of the page.
    pub fn bytes(&self) -> &PageBytes
        ensures { result.now ≡ self.now.page.value }
    {
        &self.page
    }

    /// Gives the page back. What was noted of its leaves is lost.
    pub fn into_page(self) -> Box<PageBytes>
        ensures { result ≡ self.page }
    {
        self.page
    }

    /// Whether the leaf was noted.
    pub fn has(&self, note: &LeafNote) -> bool
        ensures { IsTrue result → Fits note.now self.now.page.value.b }
    {
        are_four(&self.notes);
        self.notes[note.slot()].is(note)
    }

    /// Notes a leaf. What was noted in its place is forgotten.
    pub fn add(&mut self, note: LeafNote)
        requires { Fits note self.old.page.value.b }
        ensures { self.new ≡ self.old }
    {
        self.notes[note.slot()] = note;
    }

    /// Whether the leaf was told to be dead.
    pub(crate) fn has_dead(&self, part: &LeafPart) -> bool
        ensures { IsTrue result → Contains self.now.dead (Some part.now) }
    {
        are_eight(&self.dead);
        match self.dead[part.slot()] {
            Some(dead) => dead.is(part),
            None => false,
        }
    }

    /// Marks a leaf as dead. What was marked in its place is forgotten.
    pub(crate) fn mark(&mut self, part: LeafPart)
        ensures page { self.new.page ≡ self.old.page }
        ensures dead { (p : LeafPart) → Contains self.new.dead (Some p) → Contains self.old.dead (Some p) ⊎ (p ≡ part) }
    {
        self.dead[part.slot()] = Some(part);
    }
}

/// There are four notes: said for the proof, nothing runs.
fn are_four(notes: &[LeafNote; 4])
    ensures { length notes.now ≡ 4 }
{}

/// There are eight places: said for the proof, nothing runs.
fn are_eight(dead: &[Option<LeafPart>; 8])
    ensures { length dead.now ≡ 8 }
{}
