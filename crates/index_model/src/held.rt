//! Documents and snapshots in memory.

ghost use Rattle.std.specs.Prelude.{◌≡◌, ◌≤◌, filter, not, nat_eq, IfOk, MatchOption, None};
ghost use Rattle.std.specs.Prelude.{Some};
ghost use Rattle.std.specs.Str.{bytes_eq};
ghost use Rattle.std.specs.List.{list_any};
ghost use Rattle.point_codec.specs.Points.{in_box};
ghost use Rattle.point_codec.specs.Seen.{coordinates_of};
ghost use Rattle.documents.specs.Documents.{passes, docs_failing, is_live, docs_without};
ghost use Rattle.index_model.specs.State.{Snapshot, snapshot_of};

use documents::{HeldDocument, Memory};
use point_codec::{Name, Point, all_le};
use std::alloc::Global;
use std::marker::Model;

/// A snapshot in memory. It owns what it shows.
#[derive(Drop)]
pub struct HeldSnapshot<const D: usize> {
    name: Name,
    docs: Vec<HeldDocument<D>>,
}

impl<const D: usize> Model for HeldSnapshot<D> {
    ghost use Rattle.index_model.specs.State.{Snapshot};

    ghost Value = { Snapshot };

    ghost view = { λ s. record { name = s.name; docs = s.docs.items } };
}

impl<const D: usize> HeldSnapshot<D> {
    /// A snapshot of these documents.
    pub fn of(
        alloc: Global,
        name: Name,
        docs: &[HeldDocument<D>],
    ) -> Result<HeldSnapshot<D>, Memory>
        requires { D ≤ 8 }
        ensures { IfOk result (λ s. s ≡ record { name = name; docs = docs.now }) }
    {
        Ok(HeldSnapshot {
            name,
            docs: copy_all(alloc, docs)?,
        })
    }

    /// Whether this is the snapshot's name.
    pub fn is_named(&self, name: &Name) -> bool
        ensures { result ≡ bytes_eq self.now.name name.now }
    {
        self.name.as_bytes() == name.as_bytes()
    }

    /// The documents that it shows.
    pub fn docs(&self) -> &[HeldDocument<D>]
        requires { D ≤ 8 }
        ensures { result.now ≡ self.now.docs }
    {
        self.docs.as_slice()
    }
}

/// A copy of these documents.
fn copy_all<const D: usize>(
    alloc: Global,
    docs: &[HeldDocument<D>],
) -> Result<Vec<HeldDocument<D>>, Memory>
    requires { D ≤ 8 }
    ensures { IfOk result (λ v. v.items ≡ docs.now) }
{
    let mut copies = Vec::new(alloc);
    for doc in docs {
        copies.push(doc.copy(alloc)?)?;
    }
    Ok(copies)
}

/// The snapshot of this name.
pub fn snapshot_of<'a, const D: usize>(
    snapshots: &'a [HeldSnapshot<D>],
    name: &Name,
) -> Option<&'a HeldSnapshot<D>>
    ensures { MatchOption result (snapshot_of name.now snapshots.now ≡ None)
        (λ s. snapshot_of name.now snapshots.now ≡ Some s.now) }
{
    for snapshot in snapshots {
        if snapshot.is_named(name) {
            return Some(snapshot);
        }
    }
    None
}

/// Takes the snapshot of this name out.
pub fn release<const D: usize>(snapshots: &mut Vec<HeldSnapshot<D>>, name: &Name)
    ensures { snapshots.new.items ≡ filter (λ s. not (bytes_eq s.name name.now)) snapshots.old.items }
{
    snapshots.retain(
        |snapshot| -> bool
            ensures { result ≡ not (bytes_eq snapshot.now.name name.entry.now) }
        { !snapshot.is_named(name) },
    );
}

/// Whether a document has this number.
pub fn is_live<const D: usize>(docs: &[HeldDocument<D>], number: u32) -> bool
    ensures { result ≡ is_live number docs.now }
{
    for doc in docs {
        if doc.number() == number {
            return true;
        }
    }
    false
}

/// Takes the document of this number out.
pub fn delete<const D: usize>(docs: &mut Vec<HeldDocument<D>>, number: u32)
    ensures { docs.new.items ≡ docs_without number docs.old.items }
{
    docs.retain(
        |doc| -> bool
            ensures { result ≡ not (nat_eq doc.now.number number) }
        { doc.number() != number },
    );
}

/// Takes the documents with a point in the box out.
pub fn delete_in<const D: usize>(docs: &mut Vec<HeldDocument<D>>, lo: &Point<D>, hi: &Point<D>)
    requires { D ≤ 8 }
    ensures { docs.new.items ≡ docs_failing (in_box (record { lo = lo.now.c; hi = hi.now.c })) docs.old.items }
{
    docs.retain(
        |doc| -> bool
            ensures { result ≡ not (passes (in_box (record { lo = lo.entry.now.c; hi = hi.entry.now.c })) doc.now) }
        { !has_point_in(doc.points(), lo, hi) },
    );
}

/// Whether one of the points lies in the box.
fn has_point_in<const D: usize>(points: &[Point<D>], lo: &Point<D>, hi: &Point<D>) -> bool
    ensures { result ≡ list_any (in_box (record { lo = lo.now.c; hi = hi.now.c })) (coordinates_of points.now) }
{
    for point in points {
        if all_le(&lo.c, &point.c) && all_le(&point.c, &hi.c) {
            return true;
        }
    }
    false
}
