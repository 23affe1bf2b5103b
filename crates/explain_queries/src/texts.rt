//! What is told of a query. For want of memory a part of it may be appended.

ghost use Rattle.std.specs.Prelude.{◌≡◌, ◌++◌, OnOk};
ghost use Rattle.explain_queries.specs.Explained.{near_text, shape_text};

use bkd_reader::Cost;
use itoa::Buffer;
use std::alloc::AllocError;

/// Appends what a box or a polygon tests and touches, and how many documents it hits.
#[tactic(auto, unfolding(crate::specs::Explained::shape_text))]
pub fn put_shape(reply: &mut Vec<u8>, cost: &Cost, hits: usize) -> Result<(), AllocError>
    ensures { OnOk result (reply.new.items ≡ reply.old.items ++ shape_text cost.now.tested cost.now.touched hits) }
{
    let mut digits = Buffer::new();
    reply.extend_from_slice(b"tested ")?;
    reply.extend_from_slice(digits.format(cost.tested).as_bytes())?;
    reply.extend_from_slice(b" touched ")?;
    reply.extend_from_slice(digits.format(cost.touched).as_bytes())?;
    reply.extend_from_slice(b" hits ")?;
    reply.extend_from_slice(digits.format(hits).as_bytes())?;
    reply.push(b'\n')?;
    Ok(())
}

/// Appends what a query for the nearest touches, and how many documents it finds.
#[tactic(auto, unfolding(crate::specs::Explained::near_text))]
pub fn put_near(reply: &mut Vec<u8>, touched: u64, found: usize) -> Result<(), AllocError>
    ensures { OnOk result (reply.new.items ≡ reply.old.items ++ near_text touched found) }
{
    let mut digits = Buffer::new();
    reply.extend_from_slice(b"touched ")?;
    reply.extend_from_slice(digits.format(touched).as_bytes())?;
    reply.extend_from_slice(b" near ")?;
    reply.extend_from_slice(digits.format(found).as_bytes())?;
    reply.push(b'\n')?;
    Ok(())
}
