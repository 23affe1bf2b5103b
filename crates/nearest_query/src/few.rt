//! The nearest numbers in one vector, where they are few.

ghost use Rattle.std.specs.Prelude.{◌≡◌, ◌≢◌, ◌≤◌, ◌<◌, ◌-◌, ℕ, List, ◌∷◌, length, OnOk, IfSome, IfNone, IsTrue, All};
ghost use Rattle.std.specs.Prelude.{Contains, false, slice_index_or, take};
ghost use Rattle.std.specs.Ordering.{is_lt};
ghost use Rattle.std.specs.declared.cmp.Ordering.TheVariants.{Less};
ghost use Rattle.point_codec.specs.declared.entries.Near.{Near};
ghost use Rattle.documents.specs.NearestEntries.{IsNearest};
ghost use Rattle.nearest_query.specs.Best.{near_cmp, IsInsertedAmong};

use point_codec::Near;
use std::alloc::AllocError;

/// Takes the entry where it is among the `room` nearest so far.
pub fn offer_few(nears: &mut Vec<Near>, room: usize, near: Near) -> Result<(), AllocError>
    ensures { (entries : List Near) → 1 ≤ room → IsNearest room entries nears.old.items
        → OnOk result (IsNearest room (near ∷ entries) nears.new.items) }
{
    if is_full_before(nears.as_slice(), room, &near) {
        return Ok(());
    }
    match place_of(nears.as_slice(), near.doc) {
        Some(i) => improve(nears, i, near),
        None => add(nears, room, near),
    }
}

/// Whether all places are taken and the entry doesn't come before the last.
fn is_full_before(nears: &[Near], room: usize, near: &Near) -> bool
    ensures yes { IsTrue result → (room ≤ length nears.now)
        × (is_lt (near_cmp near.now (slice_index_or nears.now (length nears.now - 1) near.now)) ≡ false) }
    ensures some { IsTrue result → 0 < length nears.now }
    ensures no { result ≡ false → 1 ≤ room → room ≤ length nears.now
        → near_cmp near.now (slice_index_or nears.now (length nears.now - 1) near.now) ≡ Less }
{
    if nears.len() < room {
        return false;
    }
    match nears.last() {
        Some(last) => !near.cmp(last).is_lt(),
        None => false,
    }
}

/// The place of a number among the nearest. None exactly where it isn't there.
fn place_of(nears: &[Near], doc: u32) -> Option<usize>
    ensures some { IfSome result
        (λ i. (i < length nears.now) × ((d : Near) → (slice_index_or nears.now i d).doc ≡ doc)) }
    ensures none { IfNone result (All (λ a. a.doc ≢ doc) nears.now) }
{
    for (i, near) in nears.iter().enumerate() {
        if near.doc == doc {
            return Some(i);
        }
    }
    None
}

/// Gives the number of a place the entry's distance where that is less.
fn improve(nears: &mut Vec<Near>, place: usize, near: Near) -> Result<(), AllocError>
    requires { place < length nears.old.items }
    ensures { (entries : List Near) (room : ℕ) → IsNearest room entries nears.old.items
        → (slice_index_or nears.old.items place near).doc ≡ near.doc
        → (room ≤ length nears.old.items
        → near_cmp near (slice_index_or nears.old.items (length nears.old.items - 1) near) ≡ Less)
        → OnOk result (IsNearest room (near ∷ entries) nears.new.items) }
{
    if nears[place].dist2 <= near.dist2 {
        return Ok(());
    }
    nears.remove(place);
    insert_near(nears, near)
}

/// Adds a number that isn't there, in place of the last where all places are taken.
fn add(nears: &mut Vec<Near>, room: usize, near: Near) -> Result<(), AllocError>
    ensures { (entries : List Near) → 1 ≤ room → IsNearest room entries nears.old.items
        → All (λ a. a.doc ≢ near.doc) nears.old.items
        → (room ≤ length nears.old.items
        → near_cmp near (slice_index_or nears.old.items (length nears.old.items - 1) near) ≡ Less)
        → OnOk result (IsNearest room (near ∷ entries) nears.new.items) }
{
    if nears.len() < room {
        return insert_near(nears, near);
    }
    nears.pop();
    insert_near(nears, near)
}

/// Puts the entry behind those that come before it.
fn insert_near(nears: &mut Vec<Near>, near: Near) -> Result<(), AllocError>
    ensures { OnOk result (IsInsertedAmong near nears.old.items nears.new.items) }
{
    let place = rank(nears.as_slice(), &near);
    nears.insert(place, near)?;
    Ok(())
}

/// How many come before the entry, up to the first that doesn't.
fn rank(nears: &[Near], near: &Near) -> usize
    ensures within { result ≤ length nears.now }
    ensures nearer { All (λ a. near_cmp a near.now ≡ Less) (take result nears.now) }
    ensures next { result < length nears.now
        → is_lt (near_cmp (slice_index_or nears.now result near.now) near.now) ≡ false }
{
    for (i, other) in nears.iter().enumerate() {
        if !other.cmp(near).is_lt() {
            return i;
        }
    }
    nears.len()
}

/// Whether all places are taken and the last is nearer than this distance.
pub fn end_before(nears: &[Near], room: usize, dist2: u128) -> bool
    ensures full { IsTrue result → (room ≤ length nears.now) × (0 < length nears.now) }
    ensures yes { IsTrue result → (d : Near) → (slice_index_or nears.now (length nears.now - 1) d).dist2 < dist2 }
    ensures no { result ≡ false → 1 ≤ room → room ≤ length nears.now → (a : Near) × Contains nears.now a
        × (dist2 ≤ a.dist2) }
{
    if nears.len() < room {
        return false;
    }
    match nears.last() {
        Some(last) => last.dist2 < dist2,
        None => false,
    }
}
