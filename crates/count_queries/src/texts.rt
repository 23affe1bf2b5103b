//! What is told of a line. For want of memory a part of it may be appended.

ghost use Rattle.std.specs.Prelude.{◌≡◌, ◌++◌, OnOk};
ghost use Rattle.script_lang.specs.Replies.{refusal_text};
ghost use Rattle.count_queries.specs.Texts.{bucket_text, buckets_text, grid_fault_text, points_text};

use itoa::Buffer;
use point_counts::{Bucket, GridFault};
use script_lang::replies::refuse;
use std::alloc::AllocError;

/// Appends how many points lie in a box.
#[tactic(auto, unfolding(crate::specs::Texts::points_text))]
pub(crate) fn put_points(reply: &mut Vec<u8>, n: u64) -> Result<(), AllocError>
    ensures { OnOk result (reply.new.items ≡ reply.old.items ++ points_text n) }
{
    let mut digits = Buffer::new();
    reply.extend_from_slice(b"points ")?;
    reply.extend_from_slice(digits.format(n).as_bytes())?;
    reply.push(b'\n')?;
    Ok(())
}

/// Appends how many buckets have a point, and then each of them.
#[tactic(auto, unfolding(crate::specs::Texts::buckets_text))]
pub(crate) fn put_buckets(reply: &mut Vec<u8>, buckets: &[Bucket]) -> Result<(), AllocError>
    ensures { OnOk result (reply.new.items ≡ reply.old.items ++ buckets_text buckets.now) }
{
    let mut digits = Buffer::new();
    reply.extend_from_slice(b"buckets ")?;
    reply.extend_from_slice(digits.format(buckets.len()).as_bytes())?;
    reply.push(b'\n')?;
    for bucket in buckets {
        put_bucket(reply, bucket)?;
    }
    Ok(())
}

/// Appends a bucket: its two places, and how many points it has.
fn put_bucket(reply: &mut Vec<u8>, bucket: &Bucket) -> Result<(), AllocError>
    ensures { OnOk result (reply.new.items ≡ reply.old.items ++ bucket_text bucket.now) }
{
    let mut digits = Buffer::new();
    reply.extend_from_slice(digits.format(bucket.x).as_bytes())?;
    reply.push(b' ')?;
    reply.extend_from_slice(digits.format(bucket.y).as_bytes())?;
    reply.push(b' ')?;
    reply.extend_from_slice(digits.format(bucket.n).as_bytes())?;
    reply.push(b'\n')?;
    Ok(())
}

/// Appends that there is no such grid.
pub(crate) fn put_grid_fault(
    reply: &mut Vec<u8>,
    number: u64,
    fault: &GridFault,
) -> Result<(), AllocError>
    ensures { OnOk result (reply.new.items ≡ reply.old.items ++ refusal_text number (grid_fault_text fault.now)) }
{
    let cause: &[u8] = match fault {
        GridFault::BadGrid => b"bad grid",
        GridFault::TooMany { .. } => b"too many buckets",
    };
    refuse(reply, number, &[cause])
}
