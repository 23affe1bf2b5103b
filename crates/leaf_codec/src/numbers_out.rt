//! The numbers of a leaf, all together.

ghost use Rattle.std.specs.Prelude.{◌≡◌, ◌+◌, ◌++◌, OnOk, OnErr, length, take};
ghost use Rattle.leaf_codec.specs.Raw.{raw_docs};
ghost use Rattle.leaf_codec.specs.Views.{raw_numbers_of, IsNumbers};

use crate::read_numbers::Numbers;
use std::alloc::AllocError;

/// Appends the numbers in their order. For want of memory none is appended.
pub fn push_all(numbers: &Numbers<'_>, out: &mut Vec<u32>) -> Result<(), AllocError>
    requires { IsNumbers numbers.now }
    ensures ok { OnOk result
        (out.new.items ≡ out.old.items ++ raw_docs numbers.now.count (raw_numbers_of numbers.now)) }
    ensures err { OnErr result (out.new.items ≡ out.old.items) }
{
    let before = out.len();
    out.resize(before + numbers.count, 0)?;
    put_all(*numbers, out.as_mut_slice(), before);
    Ok(())
}

/// Writes the numbers into the places from `at` on, which they take to the end.
fn put_all(numbers: Numbers<'_>, out: &mut [u32], at: usize)
    requires numbers { IsNumbers numbers }
    requires room { length out.old ≡ at + numbers.count }
    ensures { out.new ≡ take at out.old ++ raw_docs numbers.entry.count (raw_numbers_of numbers.entry) }
{
    for i in 0..numbers.count {
        out[at + i] = numbers.number(i);
    }
}
