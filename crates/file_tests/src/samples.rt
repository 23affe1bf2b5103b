//! What several of the tests take: the file of a segment, put together here page by page, and what a read of files
//! answers.

use outer_io::{FileName, MemFolder};
use page_cache::{Damage, PageFault};
use page_file::seal;
use std::test::Fail;

/// The head of five entries of one dimension in leaves of two, over an index that tells each leaf's own cell.
pub const OWN_HEAD: [u8; 28] = *b"BKDPSEG2\x01\x03\0\x02\0\0\0\x05\0\0\0\x03\0\0\0\x2c\0\0\0\x01";

/// That index of the three leaves, which are of 12, 9 and 9 bytes, over the cell from 5 to 7, split at 7 twice.
pub const OWN: [u8; 44] = [
    0x80, 0, 0, 5, 0x80, 0, 0, 7, 3, 7, 0, 21, 22, 4, 0, 12, 9, 12, 0x80, 0, 0, 5, 0x80, 0, 0, 7,
    9, 0x80, 0, 0, 7, 0x80, 0, 0, 7, 9, 0x80, 0, 0, 7, 0x80, 0, 0, 7,
];

/// That index packed, with no cells of leaves.
pub const PACKED: [u8; 20] = [
    0x80, 0, 0, 5, 0x80, 0, 0, 7, 3, 7, 0, 21, 6, 4, 0, 12, 1, 12, 9, 9,
];

/// The leaves: number 0 at 5 and 1 at 7; numbers 2 and 3 at 7; number 4 at 7.
pub const LEAVES: [u8; 30] = [
    0, 2, 0, 0, 3, 0x80, 0, 0, 0, 0, 5, 7, 0, 2, 0, 2, 4, 0x80, 0, 0, 7, 0, 1, 0, 4, 4, 0x80, 0, 0,
    7,
];

/// What a read of files answers.
#[derive(Clone, Copy, PartialEq, Eq, Debug, Drop)]
pub enum Told {
    Fine,
    Failed,
    Missing,
    /// The size and the needed one.
    Size(u64, u64),
    /// The number of a page.
    Page(u32),
    /// How many bytes of payloads are no body.
    Body(usize),
    /// The two numbers, said and found.
    Unequal(u64, u64),
    /// The page of a leaf, its offset and its length.
    Leaf(u32, u16, u16),
    Other,
}

/// What is told of a damage.
fn damage_told(damage: &Damage) -> Told {
    match damage {
        Damage::Missing { .. } => Told::Missing,
        Damage::Size { size, needed, .. } => Told::Size(*size, *needed),
        Damage::Page { number, .. } => Told::Page(*number),
        Damage::Body { bytes, .. } => Told::Body(bytes.as_slice().len()),
        Damage::Unequal { said, found, .. } => Told::Unequal(*said, *found),
        Damage::Leaf {
            number,
            offset,
            length,
            ..
        } => Told::Leaf(*number, *offset, *length),
        _ => Told::Other,
    }
}

/// What is told of a fault.
pub fn fault_told(fault: &PageFault) -> Told {
    match fault {
        PageFault::Damaged(damage) => damage_told(damage),
        PageFault::Failed => Told::Failed,
        PageFault::Memory => Told::Other,
    }
}

/// What is told of an answer: `Fine` of any value, and of a fault what `fault_told` says.
pub fn answer_told<T: Drop>(answer: Result<T, PageFault>) -> Told {
    match answer {
        Ok(_) => Told::Fine,
        Err(fault) => fault_told(&fault),
    }
}

/// The first so many bytes.
pub fn front(bytes: &[u8], len: usize) -> &[u8] {
    bytes.split_at(len.min(bytes.len())).0
}

/// The bytes with one of them changed, or put behind them.
pub fn changed(rt: &impl AllocGlobal, bytes: &[u8], at: usize, byte: u8) -> Result<Vec<u8>, Fail> {
    let mut bytes = bytes.to_vec(rt.alloc())?;
    if at < bytes.len() {
        bytes[at] = byte;
    } else {
        bytes.push(byte)?;
    }
    Ok(bytes)
}

/// The bytes with the lowest bit of one of them changed.
pub fn flipped(rt: &impl AllocGlobal, bytes: &[u8], at: usize) -> Result<Vec<u8>, Fail> {
    let mut bad = bytes.to_vec(rt.alloc())?;
    if at < bad.len() {
        bad[at] ^= 1;
    }
    Ok(bad)
}

/// Appends the page with this payload for this place of the file of a segment.
pub fn put_page(out: &mut Vec<u8>, id: u64, number: u32, payload: &[u8]) -> Result<(), Fail> {
    let part = payload.split_at(payload.len().min(4064)).0;
    Ok(out.extend_from_slice(&seal(1, id, number, part).b)?)
}

/// The file of a segment with a head, an index and leaves, each on one page.
pub fn file(
    rt: &HostRuntime,
    id: u64,
    head: &[u8],
    index: &[u8],
    leaves: &[u8],
) -> Result<Vec<u8>, Fail> {
    let mut out = Vec::new(rt.alloc());
    put_page(&mut out, id, 0, head)?;
    put_page(&mut out, id, 1, index)?;
    put_page(&mut out, id, 2, leaves)?;
    Ok(out)
}

/// The file of the three leaves, each of which has its own cell, as this segment.
pub fn file_of_three(rt: &HostRuntime, id: u64) -> Result<Vec<u8>, Fail> {
    file(rt, id, &OWN_HEAD, &OWN, &LEAVES)
}

/// A folder with one file.
pub fn folder_with(rt: &HostRuntime, name: FileName, bytes: &[u8]) -> Result<MemFolder, Fail> {
    let mut folder = MemFolder::new(rt.alloc(), Vec::new(rt.alloc()));
    folder.put(name, bytes.to_vec(rt.alloc())?)?;
    Ok(folder)
}
