//! The entries of segments, leaves read in place, and how often a page is read for them.

ghost use Rattle.std.specs.Prelude.{◌≡◌, IfSome};

use crate::asserts::same;
use crate::samples::{
    LEAVES, OWN, OWN_HEAD, PACKED, Told, answer_told, changed, fault_told, file, file_of_three,
    folder_with, front,
};
use inner_pack::NodeAt;
use live_bits::LiveBits;
use outer_io::{FileName, MemFolder};
use page_cache::{LeafNote, PageCache};
use point_codec::{Entry, Point};
use segment_file::{
    SegmentHead, bad_leaf, leaf_in, load_leaf, numbers_without_entry, open_segment, read_entries,
};
use std::process::Abort;
use std::test::Fail;

/// The heads over the other forms of the index.
const TABLE_HEAD: [u8; 28] = *b"BKDPSEG1\x01\x01\0\x02\0\0\0\x05\0\0\0\x03\0\0\0\x2a\0\0\0\x01";

const PACKED_HEAD: [u8; 28] = *b"BKDPSEG1\x01\x02\0\x02\0\0\0\x05\0\0\0\x03\0\0\0\x14\0\0\0\x01";

/// The index as two tables.
const TABLE: [u8; 42] = [
    0x80, 0, 0, 5, 0x80, 0, 0, 7, 0, 0x80, 0, 0, 7, 0, 0x80, 0, 0, 7, 0, 0, 0, 0, 0, 0, 0, 12, 0,
    0, 0, 0, 0, 12, 0, 9, 0, 0, 0, 0, 0, 21, 0, 9,
];

/// The second leaf's entries at 8, outside its own cell.
const ASTRAY: [u8; 30] = [
    0, 2, 0, 0, 3, 0x80, 0, 0, 0, 0, 5, 7, 0, 2, 0, 2, 4, 0x80, 0, 0, 8, 0, 1, 0, 4, 4, 0x80, 0, 0,
    7,
];

/// The last leaf with two entries.
const CROWDED: [u8; 30] = [
    0, 2, 0, 0, 3, 0x80, 0, 0, 0, 0, 5, 7, 0, 2, 0, 2, 4, 0x80, 0, 0, 7, 0, 2, 0, 4, 4, 0x80, 0, 0,
    7,
];

/// The live entries where 1 and 2 are dead.
const LIVE: [Entry<1>; 3] = [
    Entry {
        doc: 0,
        point: Point { c: [5] },
    },
    Entry {
        doc: 3,
        point: Point { c: [7] },
    },
    Entry {
        doc: 4,
        point: Point { c: [7] },
    },
];

/// A folder with segment 7, and its head.
fn stored(
    rt: &HostRuntime,
    head: &[u8],
    index: &[u8],
    leaves: &[u8],
) -> Result<(MemFolder, SegmentHead<1>), Fail> {
    let bytes = file(rt, 7, head, index, leaves)?;
    let mut folder = folder_with(rt, FileName::Segment(7), bytes.as_slice())?;
    match open_segment(rt.alloc(), &mut folder, 7) {
        Ok(head) => Ok((folder, head)),
        Err(_) => Err("no segment")?,
    }
}

/// The head and the index in each form.
const FORMS: [(&[u8], &[u8]); 3] = [
    (&TABLE_HEAD, &TABLE),
    (&PACKED_HEAD, &PACKED),
    (&OWN_HEAD, &OWN),
];

/// The live entries are read, and in so many calls of the folder.
fn reads_live(
    rt: &(impl Abort + AllocGlobal),
    folder: &mut MemFolder,
    cache: &mut PageCache,
    head: &SegmentHead<1>,
    calls: u64,
) -> Result<(), Fail> {
    let live = LiveBits::of_docs(rt.alloc(), &[0, 3, 4])?;
    folder.plan(Vec::new(rt.alloc()), Some(calls));
    let entries = read_entries(rt.alloc(), folder, cache, head, &live)
        .ok()
        .ok_or("no entries")?;
    same(rt, entries.as_slice(), LIVE.as_slice());
    Ok(())
}

#[test]
fn live_entries_are_read_in_each_form_and_their_page_once(rt: HostRuntime) -> Result<(), Fail> {
    for (head, index) in FORMS {
        let (mut folder, head) = stored(&rt, head, index, &LEAVES)?;
        let mut cache = PageCache::new(rt.alloc(), 1)?;
        reads_live(&rt, &mut folder, &mut cache, &head, 1)?;
        reads_live(&rt, &mut folder, &mut cache, &head, 0)?;
    }
    Ok(())
}

#[test]
fn numbers_without_an_entry_are_found(rt: HostRuntime) -> Result<(), Fail> {
    let (mut folder, head) = stored(&rt, &OWN_HEAD, &OWN, &LEAVES)?;
    let mut cache = PageCache::new(rt.alloc(), 1)?;
    let live = LiveBits::of_docs(rt.alloc(), &[0, 3, 9])?;
    let left = numbers_without_entry(rt.alloc(), &mut folder, &mut cache, &head, &live)
        .ok()
        .ok_or("no numbers")?;
    same(&rt, (left.live_count(), left.is_live(9)), (1, true));
    Ok(())
}

#[test]
fn a_head_is_what_the_file_says(rt: HostRuntime) -> Result<(), Fail> {
    let (_, opened) = stored(&rt, &PACKED_HEAD, &PACKED, &LEAVES)?;
    let head = opened.copy(rt.alloc())?;
    same(
        &rt,
        (head.id(), head.entries(), head.leaf_size()),
        (7, 5, 2),
    );
    same(&rt, head.index().body(), PACKED.as_slice());
    Ok(())
}

#[test]
fn a_head_tells_the_count_of_each_leaf(rt: HostRuntime) -> Result<(), Fail> {
    let (_, opened) = stored(&rt, &PACKED_HEAD, &PACKED, &LEAVES)?;
    let head = opened.copy(rt.alloc())?;
    same(
        &rt,
        (head.count_of(1), head.count_of(2), head.count_of(3)),
        (2, 1, 0),
    );
    Ok(())
}

/// What reading all entries answers, where the file of the opened segment comes to have these bytes.
fn read(rt: &HostRuntime, bytes: &[u8], fail: &[u64]) -> Result<Told, Fail> {
    let (mut folder, head) = stored(rt, &OWN_HEAD, &OWN, &LEAVES)?;
    folder.put(FileName::Segment(7), bytes.to_vec(rt.alloc())?)?;
    folder.plan(fail.to_vec(rt.alloc())?, None);
    let live = LiveBits::of_docs(rt.alloc(), &[])?;
    let mut cache = PageCache::new(rt.alloc(), 1)?;
    let answer = read_entries(rt.alloc(), &mut folder, &mut cache, &head, &live);
    Ok(answer_told(answer))
}

#[test]
fn a_read_that_fails_is_told(rt: HostRuntime) -> Result<(), Fail> {
    let bytes = file_of_three(&rt, 7)?;
    same(&rt, read(&rt, bytes.as_slice(), &[1])?, Told::Fine);
    same(&rt, read(&rt, bytes.as_slice(), &[0])?, Told::Failed);
    Ok(())
}

#[test]
fn a_file_that_was_cut_or_changed_is_told(rt: HostRuntime) -> Result<(), Fail> {
    let bytes = file_of_three(&rt, 7)?;
    let cut = front(bytes.as_slice(), 12287);
    same(&rt, read(&rt, cut, &[])?, Told::Size(12287, 12288));
    let bad = changed(&rt, bytes.as_slice(), 8192 + 29, 8)?;
    same(&rt, read(&rt, bad.as_slice(), &[])?, Told::Page(2));
    Ok(())
}

/// Leaves in a page of their own, one of which is none, and what is told of it.
const NO_LEAVES: [(&[u8], Told); 3] = [
    (&ASTRAY, Told::Leaf(2, 12, 9)),
    (&CROWDED, Told::Leaf(2, 21, 9)),
    (&[0; 30], Told::Leaf(2, 0, 12)),
];

#[test]
fn a_leaf_that_is_none_is_told(rt: HostRuntime) -> Result<(), Fail> {
    for (leaves, expected) in NO_LEAVES {
        let bytes = file(&rt, 7, &OWN_HEAD, &OWN, leaves)?;
        same(&rt, read(&rt, bytes.as_slice(), &[])?, expected);
    }
    Ok(())
}

#[test]
fn the_leaves_of_another_segment_are_told(rt: HostRuntime) -> Result<(), Fail> {
    let bytes = file_of_three(&rt, 8)?;
    same(&rt, read(&rt, bytes.as_slice(), &[])?, Told::Page(2));
    Ok(())
}

/// What the leaf of the node answers: the number of its first entry, or the damage.
fn first_doc(
    rt: &HostRuntime,
    folder: &mut MemFolder,
    cache: &mut PageCache,
    head: &SegmentHead<1>,
    node: &NodeAt<'_, 1>,
) -> Result<u32, Told>
    requires { node.now.leaves ≡ 1 }
{
    let place = match load_leaf(rt.alloc(), folder, cache, head, node) {
        Ok(place) => place,
        Err(fault) => return Err(fault_told(&fault)),
    };
    let Some(view) = leaf_in(cache, head, node, place) else {
        return Err(fault_told(&bad_leaf(cache, head, node, place)));
    };
    if view.count() == 0 {
        return Err(Told::Other);
    }
    Ok(view.doc(0))
}

/// The second of three leaves.
fn middle(head: &SegmentHead<1>) -> Option<NodeAt<'_, 1>>
    ensures { IfSome result (λ node. node.leaves ≡ 1) }
{
    let (left, _) = head.index().walk().children()?;
    let (_, node) = left.children()?;
    match node.children() {
        Some(_) => None,
        None => Some(node),
    }
}

/// What the second leaf answers where the folder takes so many calls.
fn middle_doc(
    rt: &HostRuntime,
    folder: &mut MemFolder,
    cache: &mut PageCache,
    head: &SegmentHead<1>,
    calls: u64,
) -> Result<Result<u32, Told>, Fail> {
    let node = middle(head).ok_or("no leaf")?;
    folder.plan(Vec::new(rt.alloc()), Some(calls));
    Ok(first_doc(rt, folder, cache, head, &node))
}

#[test]
fn a_kept_page_is_read_no_more(rt: HostRuntime) -> Result<(), Fail> {
    let mut cache = PageCache::new(rt.alloc(), 1)?;
    let (mut folder, head) = stored(&rt, &OWN_HEAD, &OWN, &LEAVES)?;
    let first = middle_doc(&rt, &mut folder, &mut cache, &head, 1)?;
    same(&rt, first, Ok(2));
    let again = middle_doc(&rt, &mut folder, &mut cache, &head, 0)?;
    same(&rt, again, Ok(2));
    cache.forget(7);
    let forgotten = middle_doc(&rt, &mut folder, &mut cache, &head, 0)?;
    same(&rt, forgotten, Err(Told::Failed));
    Ok(())
}

#[test]
fn a_page_is_not_kept_where_a_leaf_is_none(rt: HostRuntime) -> Result<(), Fail> {
    let mut cache = PageCache::new(rt.alloc(), 1)?;
    let (mut folder, head) = stored(&rt, &OWN_HEAD, &OWN, &ASTRAY)?;
    let first = middle_doc(&rt, &mut folder, &mut cache, &head, 1)?;
    same(&rt, first, Err(Told::Leaf(2, 12, 9)));
    let again = middle_doc(&rt, &mut folder, &mut cache, &head, 0)?;
    same(&rt, again, Err(Told::Failed));
    Ok(())
}

/// Whether the second leaf, once its page was loaded, is noted there as one of so many entries.
fn is_noted(rt: &HostRuntime, leaves: &[u8], count: u16) -> Result<bool, Fail> {
    let mut cache = PageCache::new(rt.alloc(), 1)?;
    let (mut folder, head) = stored(rt, &OWN_HEAD, &OWN, leaves)?;
    let node = middle(&head).ok_or("no leaf")?;
    let Ok(place) = load_leaf(rt.alloc(), &mut folder, &mut cache, &head, &node) else {
        return Ok(false);
    };
    let note = LeafNote::of(&node.cell(), place.offset, place.length, count);
    let (_, noted) = cache.noted_view(head.id(), head.page_of(place), &note);
    Ok(noted)
}

/// The leaf page, a count, and whether the second leaf is known to have as many entries: a leaf that is none isn't.
const NOTES: [(&[u8], u16, bool); 3] = [
    (&LEAVES, 2, true),
    (&LEAVES, 1, false),
    (&ASTRAY, 2, false),
];

#[test]
fn a_leaf_that_was_read_is_known_the_second_time(rt: HostRuntime) -> Result<(), Fail> {
    for (leaves, count, expected) in NOTES {
        same(&rt, is_noted(&rt, leaves, count)?, expected);
    }
    Ok(())
}
