//! The bytes of files that are open.
ghost use Rattle.std.specs.Io.{ReadsAtMost};

use std::fs::File;
use std::io;
use std::io::ErrorKind;
use std::os::unix::fs::FileExt;

/// Whether two files hold the same bytes.
pub(crate) fn hold_same(one: &File, other: &File) -> io::Result<bool> {
    let (mut left, mut right) = ([0; 4096], [0; 4096]);
    let mut at = 0u64;
    for _ in 0..u64::MAX {
        let count = read_fully(one, at, &mut left)?;
        let others = read_fully(other, at, &mut right)?;
        if left[..count] != right[..others] {
            return Ok(false);
        }
        if count == 0 {
            return Ok(true);
        }
        at = at.saturating_add(count as u64);
    }
    Ok(false)
}

/// Reads a file from the byte `at` on until the buffer is full or the file ends.
pub(crate) fn read_fully<F: FileExt>(file: &F, at: u64, buf: &mut [u8]) -> io::Result<usize>
    ensures { ReadsAtMost result buf.new }
{
    if at > i64::MAX.cast_unsigned() {
        return Ok(0);
    }
    let mut count = 0;
    for _ in 0..u64::MAX {
        if count == buf.len() {
            return Ok(count);
        }
        match file.read_at(&mut buf[count..], at.saturating_add(count as u64)) {
            Ok(0) => return Ok(count),
            Ok(more) => count += more,
            Err(e) if e.kind() == ErrorKind::Interrupted => {}
            Err(e) => return Err(e),
        }
    }
    Err(ErrorKind::Interrupted.into())
}
