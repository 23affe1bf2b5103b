//! The entries of a leaf, offered outwards from a point's place in the dimension in which they ascend.

ghost use Rattle.std.specs.Prelude.{◌≡◌, ◌<◌, List, [], ◌∷◌, length, Some, IsTrue, OnOk, take, drop, slice_get, ◌-ℤ◌};
ghost use Rattle.point_codec.specs.Points.{Item, square};
ghost use Rattle.point_codec.specs.declared.entries.Near.{Near};
ghost use Rattle.documents.specs.NearestEntries.{nears_of};
ghost use Rattle.nearest_query.specs.Best.{AreBest, AreAdded, AreNearer};
ghost use Rattle.nearest_query.specs.Parted.{AreParted, gap2};
ghost use Rattle.nearest_query.specs.Segments.{live_items};

use crate::candidates::Candidates;
use leaf_codec::LeafView;
use live_bits::LiveBits;
use point_codec::{Near, Point};
use std::alloc::AllocError;

/// Offers the live entries from the place on, up to the first entry that is so far away in dimension `d` that neither
/// it nor one behind it can be among the nearest.
pub fn offer_above<const D: usize>(
    view: &LeafView<'_, D>,
    live: &LiveBits,
    at: &Point<D>,
    d: usize,
    place: u16,
    found: &mut Candidates,
) -> Result<(), AllocError>
    requires { AreParted D d at.now.c place view.now }
    ensures room { found.new.many.room ≡ found.old.many.room }
    ensures found { (seen : List Near) → AreBest seen found.old
        → OnOk result (AreAdded seen (nears_of at.now.c (live_items live.now (drop place view.now))) found.new) }
{
    for i in place..view.count() {
        if is_beyond(view, at, d, i, found) {
            return Ok(());
        }
        offer_entry(view, live, at, i, found)?;
    }
    Ok(())
}

/// Offers the live entries before the place, the last one first, in the same way.
pub fn offer_below<const D: usize>(
    view: &LeafView<'_, D>,
    live: &LiveBits,
    at: &Point<D>,
    d: usize,
    place: u16,
    found: &mut Candidates,
) -> Result<(), AllocError>
    requires { AreParted D d at.now.c place view.now }
    ensures room { found.new.many.room ≡ found.old.many.room }
    ensures found { (seen : List Near) → AreBest seen found.old
        → OnOk result (AreAdded seen (nears_of at.now.c (live_items live.now (take place view.now))) found.new) }
{
    for i in (0..place).rev() {
        if is_beyond(view, at, d, i, found) {
            return Ok(());
        }
        offer_entry(view, live, at, i, found)?;
    }
    Ok(())
}

/// Whether the places are taken by what is nearer than entry `i` is in dimension `d` alone.
fn is_beyond<const D: usize>(
    view: &LeafView<'_, D>,
    at: &Point<D>,
    d: usize,
    i: u16,
    found: &Candidates,
) -> bool
    requires within { i < length view.now }
    requires dimension { d < D }
    ensures { IsTrue result → (x : Item) → slice_get view.now i ≡ Some x → (seen : List Near) → AreBest seen found.now
        → AreNearer (gap2 d at.now.c x) found.now }
{
    let gap = squared_gap(&view.coordinate(i, d), &at.c[d]);
    found.ends_before(u128::from(gap))
}

/// The square of the difference of two coordinates.
fn squared_gap(a: &i32, b: &i32) -> u64
    ensures { result ≡ square (a.now -ℤ b.now) }
{
    let apart = u64::from(a.abs_diff(*b));
    apart * apart
}

/// Offers entry `i` where it is live. Mostly it is too far away, and its number isn't looked at.
fn offer_entry<const D: usize>(
    view: &LeafView<'_, D>,
    live: &LiveBits,
    at: &Point<D>,
    i: u16,
    found: &mut Candidates,
) -> Result<(), AllocError>
    requires { i < length view.now }
    ensures room { found.new.many.room ≡ found.old.many.room }
    ensures found { (x : Item) → slice_get view.now i ≡ Some x → (seen : List Near) → AreBest seen found.old
        → OnOk result (AreAdded seen (nears_of at.now.c (live_items live.now (x ∷ []))) found.new) }
{
    let dist2 = view.point(i).dist2(at);
    if found.ends_before(dist2) {
        return Ok(());
    }
    let doc = view.doc(i);
    if !live.is_live(doc) {
        return Ok(());
    }
    found.offer(Near { dist2, doc })
}
