//! The files of a resident copy, as they are read.

ghost use Rattle.std.specs.Prelude.{◌≡◌, ◌++◌, Some, true, length, min, take, drop, option_map};
ghost use Rattle.outer_io.specs.Files.{bytes_of};
ghost use Rattle.outer_io.specs.MemFolder.{folder_files};

use outer_io::{Failed, FileName, MemFolder, Pages};

/// Reads files in memory that others read too. It counts its own reads, tells the files, and never fails.
#[derive(Drop)]
pub(crate) struct SharedPages<'a> {
    files: &'a MemFolder,
    reads: u64,
}

impl<'a> SharedPages<'a> {
    /// A reader of these files.
    pub(crate) fn new(files: &'a MemFolder) -> SharedPages<'a>
        ensures { folder_files result.files.now ≡ folder_files files.now }
    {
        SharedPages { files, reads: 0 }
    }
}

impl Pages for SharedPages<'_> {
    ghost told = { true };

    ghost files = { λ p. folder_files p.files.now };

    ghost faults = { λ _. 0 };

    ghost reads = { λ p. p.reads };

    fn size(&mut self, n: &FileName) -> Result<Option<u64>, Failed> {
        Ok(self.files.get(n).map(|bytes| bytes.len() as u64))
    }

    fn read_at(&mut self, n: &FileName, at: u64, buf: &mut [u8]) -> Result<usize, Failed> {
        self.reads = self.reads.saturating_add(1);
        Ok(copy_front(from_offset(self.files.get(n), at), buf))
    }
}

/// What a file has from an offset on. A file that isn't there has nothing.
fn from_offset(file: Option<&[u8]>, at: u64) -> &[u8]
    ensures { result.now ≡ drop at (bytes_of (option_map (λ bytes. bytes.now) file.entry)) }
{
    match file {
        Some(bytes) if at < bytes.len() as u64 => &bytes[at as usize..],
        _ => &[],
    }
}

/// Copies as many bytes as there are and fit to the front of the buffer, and answers how many.
fn copy_front(from: &[u8], buf: &mut [u8]) -> usize
    ensures count { result ≡ min (length buf.old) (length from.now) }
    ensures filled { buf.new ≡ take result from.now ++ drop result buf.old }
{
    let count = buf.len().min(from.len());
    buf[..count].copy_from_slice(&from[..count]);
    count
}
