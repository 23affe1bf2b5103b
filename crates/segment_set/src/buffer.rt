//! The buffer: entries that wait for a segment, ascending by number. Those of a document stand together.
//!
//! A document that is taken out leaves its entries at their places, with numbers that are greater by 2^31: so nothing
//! behind them is moved. They go, all at once, before what waits is looked at, and as soon as they are more than what
//! waits. So a document that is taken out costs the same wherever it stands.

ghost use Rattle.std.specs.Prelude.{◌≡◌, ◌≤◌, ◌<◌, ◌+◌, ◌^◌, ◌++◌, [], nat_eq, nat_le, nat_lt, length, map};
ghost use Rattle.std.specs.Prelude.{IfOk, OnOk, OnErr};
ghost use Rattle.std.specs.List.Sorted.{IsNonDecreasingBy};
ghost use Rattle.point_codec.specs.Seen.{items_of};
ghost use Rattle.documents.specs.Entries.{entries_but, entries_of, has_entry};
ghost use Rattle.segment_set.specs.Runs.{IsRunOf};
ghost use Rattle.segment_set.specs.Waiting.{came_as, gone_as, out_of, waiting, waits};

use point_codec::{Entry, Points};
use std::alloc::{AllocError, Global};
use std::marker::Model;

/// By how much the number of an entry that is gone is greater.
const GONE: u32 = 2147483648;

/// The number of the next document, and the entries that wait. Contracts see these, and how many entries are gone.
#[derive(Drop)]
pub(crate) struct Buffer<const D: usize> {
    // ascending by the number with which each came, those that are gone among them
    entries: Vec<Entry<D>>,
    // how many of the entries wait
    live: u32,
    next: u32,
}

impl<const D: usize> Model for Buffer<D> {
    ghost use Rattle.point_codec.specs.Seen.{items_of};
    ghost use Rattle.std.specs.Prelude.{◌-◌, length};
    ghost use Rattle.segment_set.specs.Waiting.{BufferData, IsHeld, waiting};

    ghost Value = { BufferData };

    ghost view = { λ b. record {
      next = b.next;
      items = waiting (items_of b.entries.items);
      gone = length b.entries.items - b.live;
    } };

    ghost invariant = { λ b. IsHeld b.next b.live (items_of b.entries.items) };
}

impl<const D: usize> Buffer<D> {
    /// A buffer in which nothing waits, and where `next` is the next document's number.
    pub(crate) fn new(alloc: Global, next: u32) -> Buffer<D>
        ensures items { result.items ≡ [] }
        ensures next { result.next ≡ next }
    {
        Buffer {
            entries: Vec::new(alloc),
            live: 0,
            next,
        }
    }

    /// The number of the next document.
    pub(crate) fn next(&self) -> u32
        ensures { result ≡ self.now.next }
    {
        self.next
    }

    /// How many entries wait, without those that are gone.
    pub(crate) fn len(&self) -> usize
        ensures { result ≡ length self.now.items }
    {
        self.live as usize
    }

    /// Whether no entry waits. Some that are gone may still have their places.
    pub(crate) fn is_empty(&self) -> bool
        ensures { result ≡ nat_eq (length self.now.items) 0 }
    {
        self.live == 0
    }

    /// Puts the entries of a document of the next number at the end, and answers the number. For want of memory the
    /// buffer stays.
    pub(crate) fn put(&mut self, points: &Points<D>) -> Result<u32, AllocError>
        requires dims { D ≤ 8 }
        requires room { length self.old.items + length points.now ≤ 16384 }
        requires numbered { self.old.next ≤ 2 ^ 24 }
        ensures number { IfOk result (λ n. n ≡ self.old.next) }
        ensures next { OnOk result (self.new.next ≡ self.old.next + 1) }
        ensures items { OnOk result
            (self.new.items ≡ self.old.items ++ entries_of
            (record { number = self.old.next; points = points.now })) }
        ensures refused { OnErr result (self.new ≡ self.old) }
    {
        let number = self.next;
        push_document(&mut self.entries, number, points)?;
        self.next = number + 1;
        self.live += points.as_slice().len() as u32;
        Ok(number)
    }

    /// Takes the entries of a document out, and answers whether there was one. They are found by halves.
    pub(crate) fn take(&mut self, number: u32) -> bool
        requires dims { D ≤ 8 }
        ensures answer { result ≡ has_entry number self.old.items }
        ensures rest { self.new.items ≡ entries_but number self.old.items }
        ensures next { self.new.next ≡ self.old.next }
    {
        let count = mark_gone(&mut self.entries, number);
        self.live -= count as u32;
        if (self.live as usize) < self.entries.len() / 2 {
            drop_gone(&mut self.entries);
        }
        count > 0
    }

    /// Lets the entries go that are gone, if there is one.
    pub(crate) fn settle(&mut self)
        requires dims { D ≤ 8 }
        ensures items { self.new.items ≡ self.old.items }
        ensures next { self.new.next ≡ self.old.next }
        ensures settled { self.new.gone ≡ 0 }
    {
        if (self.live as usize) < self.entries.len() {
            drop_gone(&mut self.entries);
        }
    }

    /// The entries that wait, where the buffer is settled.
    pub(crate) fn as_slice(&self) -> &[Entry<D>]
        requires settled { self.now.gone ≡ 0 }
        ensures { items_of result.now ≡ self.now.items }
    {
        self.entries.as_slice()
    }

    /// Passes over so many numbers, which documents have whose entries never wait here.
    pub(crate) fn pass(&mut self, count: u32)
        requires { self.old.next + count ≤ 2 ^ 24 }
        ensures next { self.new.next ≡ self.old.next + count }
        ensures items { self.new.items ≡ self.old.items }
    {
        self.next += count;
    }

    /// Takes all entries out. The next document's number stays.
    pub(crate) fn clear(&mut self)
        ensures items { self.new.items ≡ [] }
        ensures next { self.new.next ≡ self.old.next }
    {
        self.entries.clear();
        self.live = 0;
    }
}

/// Puts a document's entries at the end. For want of memory the entries stay.
fn push_document<const D: usize>(
    entries: &mut Vec<Entry<D>>,
    number: u32,
    points: &Points<D>,
) -> Result<(), AllocError>
    ensures put { OnOk result
        (items_of entries.new.items ≡ items_of entries.old.items ++ entries_of
        (record { number = number; points = points.now })) }
    ensures refused { OnErr result (entries.new.items ≡ entries.old.items) }
{
    let points = points.as_slice();
    entries.reserve(points.len())?;
    for point in points {
        entries.push_reserved(Entry {
            doc: number,
            point: *point,
        });
    }
    Ok(())
}

/// Where the entries that came with a number begin and end.
fn run_of<const D: usize>(entries: &[Entry<D>], number: u32) -> (usize, usize)
    requires { IsNonDecreasingBy (λ e. came_as e.doc) entries.now }
    ensures run { IsRunOf (λ e. came_as e.doc) number entries.now result.0 result.1 }
    ensures bound { result.1 ≤ length entries.now }
{
    let first = entries.partition_point(
        |entry| -> bool
            ensures { result ≡ nat_lt (came_as entry.now.doc) number }
        { number_of(entry.doc) < number },
    );
    let end = entries.partition_point(
        |entry| -> bool
            ensures { result ≡ nat_le (came_as entry.now.doc) number }
        { number_of(entry.doc) <= number },
    );
    (first, end)
}

/// The number with which an entry came.
fn number_of(doc: u32) -> u32
    ensures { result ≡ came_as doc }
{
    if doc < GONE { doc } else { doc - GONE }
}

/// Marks the entries that came with a number as gone, and answers how many of them waited.
fn mark_gone<const D: usize>(entries: &mut Vec<Entry<D>>, number: u32) -> usize
    requires dims { D ≤ 8 }
    requires ascend { IsNonDecreasingBy (λ e. came_as e.doc) entries.old.items }
    ensures marked { items_of entries.new.items ≡ map (out_of number) (items_of entries.old.items) }
    ensures count { length (waiting (items_of entries.new.items)) + result
        ≡ length (waiting (items_of entries.old.items)) }
{
    let (first, end) = run_of(entries.as_slice(), number);
    let mut count = 0;
    for i in first..end {
        count += usize::from(let_go(&mut entries[i]));
    }
    count
}

/// Marks an entry as gone, and answers whether it waited.
fn let_go<const D: usize>(entry: &mut Entry<D>) -> bool
    ensures after { entry.new ≡ record entry.old { doc = gone_as entry.old.doc } }
    ensures answer { result ≡ waits entry.old.doc }
{
    let waited = entry.doc < GONE;
    if waited {
        entry.doc += GONE;
    }
    waited
}

/// Takes the entries out that are gone.
fn drop_gone<const D: usize>(entries: &mut Vec<Entry<D>>)
    ensures { items_of entries.new.items ≡ waiting (items_of entries.old.items) }
{
    entries.retain(
        |entry| -> bool
            ensures { result ≡ waits entry.now.doc }
        { entry.doc < GONE },
    );
}
