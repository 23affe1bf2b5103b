//! Copies bytes into a buffer as far as they fit, for sources and folders in memory.
ghost use Rattle.std.specs.Prelude.{◌≡◌, ◌++◌, length, min, take, drop};

/// Copies as many bytes as there are and fit to the front of the buffer, and answers how many.
pub(crate) fn copy_front(from: &[u8], buf: &mut [u8]) -> usize
    ensures count { result ≡ min (length buf.old) (length from.now) }
    ensures filled { buf.new ≡ take result from.now ++ drop result buf.old }
{
    let count = buf.len().min(from.len());
    buf[..count].copy_from_slice(&from[..count]);
    count
}
