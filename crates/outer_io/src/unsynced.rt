//! Which files were written and may not be on the disk yet.
ghost use Rattle.outer_io.specs.declared.open_files.Opened.{Opened};
ghost use Rattle.std.specs.Prelude.{◌≡◌, ◌∷◌, ◌++◌, ◌+◌, ◌<◌, ◌≤◌, ◌==◌, [], filter, not, drop, IfOk};
ghost use Rattle.std.specs.Prelude.{option_map, vec_len, vec_capacity};
ghost use Rattle.outer_io.specs.OpenFiles.{is_opened, file_under};

use crate::file_name::FileName;
use crate::open_files::{Opened, place};
use std::alloc::{AllocError, Global};

/// The files that were written since the last barrier, each once, in the order in which they first were, each by the
/// handle that wrote it.
#[derive(Drop)]
pub(crate) struct Unsynced<F> {
    files: Vec<Opened<F>>,
    ghost reserved: { 64 ≤ vec_capacity files },
    ghost within: { vec_len files ≤ 64 },
}

/// How many files may wait for a barrier.
const MOST_UNSYNCED: usize = 64;

impl<F: Drop> Unsynced<F> {
    /// No files. All memory that it ever takes is taken here.
    pub(crate) fn new(alloc: Global) -> Result<Unsynced<F>, AllocError>
        ensures { IfOk result (λ unsynced. unsynced.files.items ≡ []) }
    {
        Ok(Unsynced {
            files: Vec::with_capacity(alloc, MOST_UNSYNCED)?,
        })
    }

    pub(crate) fn files(&self) -> &[Opened<F>]
        ensures { result.now ≡ self.now.files.items }
    {
        self.files.as_slice()
    }

    /// The handle that wrote a file.
    pub(crate) fn get(&mut self, n: &FileName) -> Option<&mut F>
        ensures { option_map (λ file. file.now) result ≡ file_under n.now self.old.files.items }
    {
        match place(&self.files, n) {
            Some(place) => Some(&mut self.files[place].file),
            None => None,
        }
    }

    pub(crate) fn is_full(&self) -> bool
        ensures { result ≡ (vec_len self.now.files == 64) }
    {
        self.files.len() == MOST_UNSYNCED
    }

    /// Notes a file that isn't noted.
    pub(crate) fn add(&mut self, name: FileName, file: F)
        requires { vec_len self.old.files < 64 }
        ensures { self.new.files.items ≡ self.old.files.items ++ record { name = name; file = file } ∷ [] }
    {
        self.files.push(Opened { name, file }).unwrap();
    }

    /// Takes out the first file, which was written before the others.
    pub(crate) fn drop_first(&mut self)
        requires { 0 < vec_len self.old.files }
        ensures items { self.new.files.items ≡ drop 1 self.old.files.items }
        ensures len { vec_len self.new.files + 1 ≡ vec_len self.old.files }
    {
        self.files.remove(0);
    }

    /// Forgets a file, which is on the disk or gone.
    pub(crate) fn remove(&mut self, n: &FileName)
        ensures { self.new.files.items ≡ filter (λ opened. not (is_opened n.now opened)) self.old.files.items }
    {
        self.files.retain(|opened| !opened.name.is(n));
    }

    /// Takes out all files, so that none waits for a barrier.
    pub(crate) fn clear(&mut self)
        ensures { self.new.files.items ≡ [] }
    {
        self.files.clear();
    }
}
