//! Files that stay open between reads.
ghost use Rattle.outer_io.specs.declared.open_files.Opened.{Opened};
ghost use Rattle.std.specs.Prelude.{◌<◌, position, slice_index_or, ◌≡◌, ◌∷◌, [], filter, not, take, option_map};
ghost use Rattle.std.specs.Prelude.{vec_len, vec_capacity, ◌≤◌, IfOk, All, Contains};
ghost use Rattle.outer_io.specs.OpenFiles.{is_opened, file_under};

use crate::file_name::FileName;
use std::alloc::{AllocError, Global};

/// A file that is open.
#[derive(Drop)]
pub(crate) struct Opened<F> {
    pub(crate) name: FileName,
    pub(crate) file: F,
}

/// The files that were read last, open, the last one first.
#[derive(Drop)]
pub(crate) struct OpenFiles<F> {
    files: Vec<Opened<F>>,
    ghost reserved: { 64 ≤ vec_capacity files },
}

/// How many files stay open.
const MOST_OPEN: usize = 64;

impl<F: Drop> OpenFiles<F> {
    /// No files. All memory that it ever takes is taken here.
    pub(crate) fn new(alloc: Global) -> Result<OpenFiles<F>, AllocError>
        ensures { IfOk result (λ files. files.files.items ≡ []) }
    {
        Ok(OpenFiles {
            files: Vec::with_capacity(alloc, MOST_OPEN)?,
        })
    }

    /// The file that is open under this name.
    pub(crate) fn get(&mut self, n: &FileName) -> Option<&F>
        ensures { option_map (λ file. file.now) result ≡ file_under n.now self.old.files.items }
    {
        match place(&self.files, n) {
            Some(place) => {
                self.put_first(place);
                Some(&self.files[0].file)
            }
            None => None,
        }
    }

    /// Counts a use of the file at this place.
    fn put_first(&mut self, place: usize)
        requires { place < vec_len self.old.files }
        ensures first { (d : Opened F)
            → slice_index_or self.new.files.items 0 d ≡ slice_index_or self.old.files.items place d }
        ensures kept { All (Contains self.old.files.items) self.new.files.items }
        ensures len { vec_len self.new.files ≡ vec_len self.old.files }
    {
        if place > 0 {
            let opened = self.files.remove(place);
            self.files.insert(0, opened).unwrap();
        }
    }

    /// Keeps a file open. Where there are as many as may be, the one that wasn't used for longest is closed for it.
    pub(crate) fn keep(&mut self, name: FileName, file: F)
        ensures { self.new.files.items ≡ take 64 (record { name = name; file = file } ∷ self.old.files.items) }
    {
        self.files.truncate(MOST_OPEN - 1);
        self.files.insert(0, Opened { name, file }).unwrap();
    }

    /// Closes the file that is open under this name, and no other.
    pub(crate) fn close(&mut self, n: &FileName)
        ensures { self.new.files.items ≡ filter (λ opened. not (is_opened n.now opened)) self.old.files.items }
    {
        self.files.retain(|opened| !opened.name.is(n));
    }
}

/// The place of the first file that is open under this name.
pub(crate) fn place<F>(files: &[Opened<F>], n: &FileName) -> Option<usize>
    ensures { result ≡ position (is_opened n.now) files.now }
{
    files.iter().position(|opened| opened.name.is(n))
}
