//! How far entries reach in each dimension.

ghost use Rattle.std.specs.Prelude.{◌≡◌, ◌≢◌, ◌≤◌, ◌<◌, ℕ, length};
ghost use Rattle.point_codec.specs.Seen.{items_of, region_of};
ghost use Rattle.bkd_build.specs.Extents.{HasExtent, IsGreatest, IsLeast, IsWidest, IsWidestSide, LieIn, width};

use point_codec::{Cell, Entry};

/// The dimension in which the entries reach farthest, the first one of those. All of them lie in the cell, so they
/// reach no farther than its sides. Only the widest side is looked at, until it is the entries' own: in that
/// dimension the cell is then the least one round them.
pub fn widest<const D: usize>(entries: &[Entry<D>], cell: &mut Cell<D>) -> usize
    requires dims { (1 ≤ D) × (D ≤ 8) }
    requires some { 0 < length entries.now }
    requires inside { LieIn D (region_of cell.old) (items_of entries.now) }
    ensures widest { IsWidest D result (items_of entries.now) }
    ensures inside { LieIn D (region_of cell.new) (items_of entries.now) }
{
    let mut exact = [false; D];
    let mut widest = widest_side(cell);
    'sides: while !exact[widest] {
        *cell = narrowed(cell, entries, widest);
        exact[widest] = true;
        widest = widest_side(cell);
    }
    widest
}

/// The cell cut down to the entries in dimension `d`.
fn narrowed<const D: usize>(cell: &Cell<D>, entries: &[Entry<D>], d: usize) -> Cell<D>
    requires dims { (1 ≤ D) × (D ≤ 8) }
    requires within { d < D }
    requires some { 0 < length entries.now }
    requires inside { LieIn D (region_of cell.now) (items_of entries.now) }
    ensures inside { LieIn D (region_of result) (items_of entries.now) }
    ensures exact { HasExtent d (width (region_of result) d) (items_of entries.now) }
    ensures others { (e : ℕ) → e ≢ d → width (region_of result) e ≡ width (region_of cell.now) e }
{
    let (least, greatest) = ends(entries, d);
    let (low, _) = cell.split(d, greatest);
    let (_, both) = low.split(d, least);
    both
}

/// The least and the greatest coordinate `d` of the entries.
fn ends<const D: usize>(entries: &[Entry<D>], d: usize) -> (i32, i32)
    requires dims { (1 ≤ D) × (D ≤ 8) }
    requires within { d < D }
    requires some { 0 < length entries.now }
    ensures least { IsLeast d result.0 (items_of entries.now) }
    ensures greatest { IsGreatest d result.1 (items_of entries.now) }
{
    let mut least = entries[0].point.c[d];
    let mut greatest = least;
    for entry in entries {
        let x = entry.point.c[d];
        least = least.min(x);
        greatest = greatest.max(x);
    }
    (least, greatest)
}

/// The dimension in which a cell is widest, the first one of those.
fn widest_side<const D: usize>(cell: &Cell<D>) -> usize
    ensures { IsWidestSide D result (region_of cell.now) }
{
    let mut widest = 0;
    let mut greatest = width(cell, 0);
    for d in 1..D {
        let other = width(cell, d);
        if other > greatest {
            widest = d;
            greatest = other;
        }
    }
    widest
}

/// The greatest less the least coordinate `d` of a cell.
fn width<const D: usize>(cell: &Cell<D>, d: usize) -> u32
    requires { d < D }
    ensures { result ≡ width (region_of cell.now) d }
{
    cell.hi().c[d].abs_diff(cell.lo().c[d])
}
