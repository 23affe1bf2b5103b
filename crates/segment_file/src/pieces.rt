//! A segment's file, put together from pages and handed to the folder in pieces of many pages.

ghost use Rattle.std.specs.Prelude.{◌≡◌, ◌≤◌, ◌<◌, ◌+◌, ◌++◌, ◌^◌, ℕ, List, [], length, vec_len, IsTrue, IfOk};
ghost use Rattle.std.specs.Prelude.{OnOk};
ghost use Rattle.outer_io.specs.Files.{bytes_of, SameBut};
ghost use Rattle.outer_io.specs.declared.file_name.FileName.TheVariants.{Segment};
ghost use Rattle.page_cache.specs.Bodies.{pages_for as pages_for_body, padded_body};
ghost use Rattle.outer_io.specs.Faults.{HasWriteCause};

use byte_cursor::Memory;
use outer_io::{FileName, Folder, WriteFault};
use page_cache::{PAGE_LEN, pages_for, put_pages, seal_from};
use std::alloc::Global;

/// How many bytes are collected before they are handed over: 256 pages.
const PIECE: usize = 256 * PAGE_LEN;

/// What of a segment's file isn't handed over yet, and how many pages it has so far. A page that is put together from
/// parts is open until it is ended.
#[derive(Drop)]
pub(crate) struct Pieces {
    id: u64,
    /// Whole pages, and behind them the payload so far of the page that is open.
    out: Vec<u8>,
    /// How many bytes the whole pages are.
    whole: usize,
    pages: u32,
    started: bool,
    ghost within: { whole ≤ vec_len out },
    ghost short: { vec_len out ≤ whole + 4064 },
}

#[tactic(auto, unfolding(crate::specs::Pieced::piece_id, crate::specs::Pieced::piece_pages, crate::specs::Pieced::so_far, crate::specs::Pieced::open_page))]
impl Pieces {
    ghost use Rattle.segment_file.specs.Pieced.{so_far, open_page, piece_id, piece_pages, IsPaged};

    /// No page yet of the file of the segment.
    pub(crate) fn new(alloc: Global, id: u64) -> Result<Pieces, Memory>
        ensures id { IfOk result (λ p. piece_id p ≡ id) }
        ensures pages { IfOk result (λ p. piece_pages p ≡ 0) }
        ensures empty { IfOk result (λ p. (held : List ℕ) → so_far held p ≡ []) }
        ensures ended { IfOk result (λ p. open_page p ≡ []) }
    {
        Ok(Pieces {
            id,
            out: Vec::with_capacity(alloc, PIECE)?,
            whole: 0,
            pages: 0,
            started: false,
        })
    }

    /// Adds the pages of a body. No page is open.
    pub(crate) fn push<F: Folder>(&mut self, folder: &mut F, body: &[u8]) -> Result<(), WriteFault>
        requires ended { open_page self.old ≡ [] }
        requires short { length body.now < 2 ^ 32 }
        requires room { piece_pages self.old + pages_for_body (length body.now) < 2 ^ 32 }
        ensures id { piece_id self.new ≡ piece_id self.old }
        ensures pages { OnOk result (piece_pages self.new ≡ piece_pages self.old + pages_for_body (length body.now)) }
        ensures ended { OnOk result (open_page self.new ≡ []) }
        ensures put { IsTrue F.told → OnOk result ((payloads : List ℕ)
            → IsPaged (Segment (piece_id self.old)) (piece_pages self.old) payloads
            (so_far (bytes_of (F.files folder.old (Segment (piece_id self.old)))) self.old)
            → IsPaged (Segment (piece_id self.old)) (piece_pages self.new) (payloads ++ padded_body body.now)
            (so_far (bytes_of (F.files folder.new (Segment (piece_id self.old)))) self.new)) }
        ensures others { IsTrue F.told
            → SameBut (Segment (piece_id self.old)) (F.files folder.old) (F.files folder.new) }
        ensures reads { F.reads folder.new ≡ F.reads folder.old }
        ensures cause { HasWriteCause (F.faults folder.old) (F.faults folder.new) result }
    {
        self.put(body)?;
        self.hand_over_piece(folder)
    }

    /// Adds the pages of a body to those that aren't handed over.
    fn put(&mut self, body: &[u8]) -> Result<(), Memory>
        requires ended { open_page self.old ≡ [] }
        requires short { length body.now < 2 ^ 32 }
        requires room { piece_pages self.old + pages_for_body (length body.now) < 2 ^ 32 }
        ensures id { piece_id self.new ≡ piece_id self.old }
        ensures pages { OnOk result (piece_pages self.new ≡ piece_pages self.old + pages_for_body (length body.now)) }
        ensures ended { OnOk result (open_page self.new ≡ []) }
        ensures put { OnOk result
            ((held payloads : List ℕ)
            → IsPaged (Segment (piece_id self.old)) (piece_pages self.old) payloads (so_far held self.old)
            → IsPaged (Segment (piece_id self.old)) (piece_pages self.new) (payloads ++ padded_body body.now)
            (so_far held self.new)) }
    {
        put_pages(&mut self.out, &FileName::Segment(self.id), self.pages, body)?;
        self.pages += pages_for(body.len() as u32);
        self.whole = self.out.len();
        Ok(())
    }

    /// How many bytes the open page has so far.
    pub(crate) fn open_len(&self) -> usize
        ensures len { result ≡ length (open_page self.now) }
        ensures few { result ≤ 4064 }
    {
        self.out.len() - self.whole
    }

    /// Adds a part to the open page, which has room for it.
    pub(crate) fn add(&mut self, part: &[u8]) -> Result<(), Memory>
        requires { length (open_page self.old) + length part.now ≤ 4064 }
        ensures id { piece_id self.new ≡ piece_id self.old }
        ensures pages { piece_pages self.new ≡ piece_pages self.old }
        ensures same { (held : List ℕ) → so_far held self.new ≡ so_far held self.old }
        ensures added { OnOk result (open_page self.new ≡ open_page self.old ++ part.now) }
    {
        self.out.extend_from_slice(part)
    }

    /// Ends the open page, if there is something on it.
    pub(crate) fn end_page<F: Folder>(&mut self, folder: &mut F) -> Result<(), WriteFault>
        requires { piece_pages self.old + 1 < 2 ^ 32 }
        ensures id { piece_id self.new ≡ piece_id self.old }
        ensures pages { OnOk result (piece_pages self.new ≤ piece_pages self.old + 1) }
        ensures ended { OnOk result (open_page self.new ≡ []) }
        ensures put { IsTrue F.told → OnOk result ((payloads : List ℕ)
            → IsPaged (Segment (piece_id self.old)) (piece_pages self.old) payloads
            (so_far (bytes_of (F.files folder.old (Segment (piece_id self.old)))) self.old)
            → IsPaged (Segment (piece_id self.old)) (piece_pages self.new)
            (payloads ++ padded_body (open_page self.old))
            (so_far (bytes_of (F.files folder.new (Segment (piece_id self.old)))) self.new)) }
        ensures others { IsTrue F.told
            → SameBut (Segment (piece_id self.old)) (F.files folder.old) (F.files folder.new) }
        ensures reads { F.reads folder.new ≡ F.reads folder.old }
        ensures cause { HasWriteCause (F.faults folder.old) (F.faults folder.new) result }
    {
        self.seal()?;
        self.hand_over_piece(folder)
    }

    /// Seals the open page where it stands, if there is something on it.
    fn seal(&mut self) -> Result<(), Memory>
        requires { piece_pages self.old + 1 < 2 ^ 32 }
        ensures id { piece_id self.new ≡ piece_id self.old }
        ensures pages { OnOk result
            (piece_pages self.new ≡ piece_pages self.old + pages_for_body (length (open_page self.old))) }
        ensures ended { OnOk result (open_page self.new ≡ []) }
        ensures put { OnOk result
            ((held payloads : List ℕ)
            → IsPaged (Segment (piece_id self.old)) (piece_pages self.old) payloads (so_far held self.old)
            → IsPaged (Segment (piece_id self.old)) (piece_pages self.new)
            (payloads ++ padded_body (open_page self.old))
            (so_far held self.new)) }
    {
        let open = self.out.len() - self.whole;
        if open == 0 {
            return Ok(());
        }
        self.out.reserve(PAGE_LEN - open)?;
        seal_from(
            &mut self.out,
            &FileName::Segment(self.id),
            self.pages,
            self.whole,
        );
        self.pages += 1;
        self.whole += PAGE_LEN;
        Ok(())
    }

    /// Hands over what isn't yet, where that is a whole piece. No page is open.
    fn hand_over_piece<F: Folder>(&mut self, folder: &mut F) -> Result<(), WriteFault>
        requires { open_page self.old ≡ [] }
        ensures id { piece_id self.new ≡ piece_id self.old }
        ensures pages { piece_pages self.new ≡ piece_pages self.old }
        ensures ended { OnOk result (open_page self.new ≡ []) }
        ensures same { IsTrue F.told
            → OnOk result (so_far (bytes_of (F.files folder.new (Segment (piece_id self.old)))) self.new
            ≡ so_far (bytes_of (F.files folder.old (Segment (piece_id self.old)))) self.old) }
        ensures others { IsTrue F.told
            → SameBut (Segment (piece_id self.old)) (F.files folder.old) (F.files folder.new) }
        ensures reads { F.reads folder.new ≡ F.reads folder.old }
        ensures cause { HasWriteCause (F.faults folder.old) (F.faults folder.new) result }
    {
        if self.out.len() < PIECE {
            return Ok(());
        }
        self.hand_over(folder)
    }

    /// Hands over what isn't yet. No page is open.
    pub(crate) fn hand_over<F: Folder>(&mut self, folder: &mut F) -> Result<(), WriteFault>
        requires { open_page self.old ≡ [] }
        ensures id { piece_id self.new ≡ piece_id self.old }
        ensures pages { piece_pages self.new ≡ piece_pages self.old }
        ensures ended { OnOk result (open_page self.new ≡ []) }
        ensures same { IsTrue F.told
            → OnOk result (so_far (bytes_of (F.files folder.new (Segment (piece_id self.old)))) self.new
            ≡ so_far (bytes_of (F.files folder.old (Segment (piece_id self.old)))) self.old) }
        ensures file { IsTrue F.told
            → OnOk result
            (bytes_of (F.files folder.new (Segment (piece_id self.old))) ≡ so_far
            (bytes_of (F.files folder.old (Segment (piece_id self.old)))) self.old) }
        ensures others { IsTrue F.told
            → SameBut (Segment (piece_id self.old)) (F.files folder.old) (F.files folder.new) }
        ensures reads { F.reads folder.new ≡ F.reads folder.old }
        ensures cause { HasWriteCause (F.faults folder.old) (F.faults folder.new) result }
    {
        let name = FileName::Segment(self.id);
        if self.started {
            folder.append(&name, self.out.as_slice())?;
        } else {
            folder.write_file(&name, self.out.as_slice())?;
            self.started = true;
        }
        self.out.clear();
        self.whole = 0;
        Ok(())
    }
}
