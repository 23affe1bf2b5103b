//! Runs of a leaf's entries that are counted at once.

ghost use Rattle.std.specs.Prelude.{◌≡◌, ◌≤◌, ◌<◌, ◌+◌, ◌-◌, ◌<ℤ◌, List, ℤ, length, All, take, drop, true, int_le};
ghost use Rattle.std.specs.Prelude.{slice_index_or, pos, IsTrue, IfSome};
ghost use Rattle.std.specs.List.{count_by};
ghost use Rattle.point_codec.specs.Points.{in_box};
ghost use Rattle.point_codec.specs.Seen.{region_of};
ghost use Rattle.leaf_codec.specs.Ascending.{AscendIn, coordinate};
ghost use Rattle.live_bits.specs.LiveSet.{LiveSet, is_live};
ghost use Rattle.point_counts.specs.Tables.{AddsCounts, RaisesCounts, live_at, is_settled, settled_at, is_up_to};

use crate::leaf::add;
use crate::sorting::{Lie, Sorting};
use leaf_codec::LeafView;
use point_codec::Cell;

/// Of fewer entries than these each is looked at for itself.
const FEW: u16 = 8;

/// Counts the entries from `from` to `end`, all of which are live, each at its place: those that may have one place
/// stand beside each other where the leaf ascends, and are counted at once. Where they are few the rest is counted one
/// by one.
pub(crate) fn count_runs<const D: usize, S: Sorting<D>>(
    leaf: &LeafView<'_, D>,
    cell: &Cell<D>,
    d: usize,
    from: u16,
    end: u16,
    sorting: &S,
    table: &mut [u64],
)
    requires order { from ≤ end }
    requires within { end ≤ length leaf.now }
    requires dimension { d < D }
    requires ascends { AscendIn d leaf.now }
    ensures { (live : LiveSet) → All (λ x. in_box (region_of cell.now) x.at ≡ true) leaf.now
        → All (λ x. is_live live x.doc ≡ true) leaf.now
        → RaisesCounts (live_at (S.bounds sorting.now) (S.place sorting.now) live (take from leaf.now))
        (live_at (S.bounds sorting.now) (S.place sorting.now) live (take end leaf.now)) table.old table.new }
{
    let mut i = from;
    while i < end {
        let next = run_end(leaf, d, i, end, sorting);
        let is_short = next - i < FEW;
        if is_short {
            count_rest(leaf, i, end, sorting, table);
            return;
        }
        count_run(leaf, cell, d, i, next, sorting, table);
        i = next;
    }
}

/// A place behind `i` up to which the entries may be counted at one place, as far as dimension `d` tells.
fn run_end<const D: usize, S: Sorting<D>>(
    leaf: &LeafView<'_, D>,
    d: usize,
    i: u16,
    end: u16,
    sorting: &S,
) -> u16
    requires order { i < end }
    requires within { end ≤ length leaf.now }
    requires dimension { d < D }
    requires ascends { AscendIn d leaf.now }
    ensures { (i < result) × (result ≤ end) }
{
    let last = sorting.last_beside(d, &leaf.coordinate(i, d));
    if last >= leaf.coordinate(end - 1, d) {
        return end;
    }
    let next = last + 1;
    leaf.count_below(d, &next).max(i + 1).min(end)
}

/// Counts the entries from `i` to `next`, all of which are live, each at its place: all at once, or in two parts, or
/// one by one.
fn count_run<const D: usize, S: Sorting<D>>(
    leaf: &LeafView<'_, D>,
    cell: &Cell<D>,
    d: usize,
    i: u16,
    next: u16,
    sorting: &S,
    table: &mut [u64],
)
    requires order { i < next }
    requires within { next ≤ length leaf.now }
    requires dimension { d < D }
    requires ascends { AscendIn d leaf.now }
    ensures { (live : LiveSet) → All (λ x. in_box (region_of cell.now) x.at ≡ true) leaf.now
        → All (λ x. is_live live x.doc ≡ true) leaf.now
        → RaisesCounts (live_at (S.bounds sorting.now) (S.place sorting.now) live (take i leaf.now))
        (live_at (S.bounds sorting.now) (S.place sorting.now) live (take next leaf.now)) table.old table.new }
{
    let low = leaf.coordinate(i, d);
    let high = leaf.coordinate(next - 1, d);
    let run = narrowed(cell, d, &low, &high);
    let lie = sorting.lie_of(&run);
    if is_settled(&lie) {
        add_all(table, &lie, u64::from(next - i));
        return;
    }
    let Some((across, cut)) = cut_in(sorting, &run) else {
        count_rest(leaf, i, next, sorting, table);
        return;
    };
    count_halves(leaf, &run, across, &cut, i, next, sorting, table);
}

/// Where the cell is cut, if it can be.
fn cut_in<const D: usize, S: Sorting<D>>(sorting: &S, run: &Cell<D>) -> Option<(usize, i32)>
    ensures { IfSome result (λ x. (x.0 < D) × (x.1 <ℤ pos 2147483647)) }
{
    let (across, cut) = sorting.cut_of(run)?;
    if across >= D || cut == i32::MAX {
        return None;
    }
    Some((across, cut))
}

/// Counts the entries from `i` to `next`, which lie in the cell: those up to the cut and those behind it, where each
/// are counted at one place, and else one by one.
fn count_halves<const D: usize, S: Sorting<D>>(
    leaf: &LeafView<'_, D>,
    run: &Cell<D>,
    d: usize,
    cut: &i32,
    i: u16,
    next: u16,
    sorting: &S,
    table: &mut [u64],
)
    requires dimension { d < D }
    requires order { i < next }
    requires within { next ≤ length leaf.now }
    requires cut { cut.now <ℤ pos 2147483647 }
    ensures { (live : LiveSet) → All (λ x. in_box (region_of run.now) x.at ≡ true) (take (next - i) (drop i leaf.now))
        → All (λ x. is_live live x.doc ≡ true) leaf.now
        → RaisesCounts (live_at (S.bounds sorting.now) (S.place sorting.now) live (take i leaf.now))
        (live_at (S.bounds sorting.now) (S.place sorting.now) live (take next leaf.now)) table.old table.new }
{
    let behind = *cut + 1;
    let first = run.lo().c[d];
    let last = run.hi().c[d];
    let front = narrowed(run, d, &first, cut);
    let back = narrowed(run, d, &behind, &last);
    let front_lie = sorting.lie_of(&front);
    let back_lie = sorting.lie_of(&back);
    if !are_settled(&front_lie, &back_lie) {
        count_rest(leaf, i, next, sorting, table);
        return;
    }
    let below = count_to(leaf, d, cut, i, next);
    add_both(
        table,
        &front_lie,
        u64::from(below),
        &back_lie,
        u64::from(next - i - below),
    );
}

/// Counts the entries from `from` to `end`, all of which are live, each at its place.
fn count_rest<const D: usize, S: Sorting<D>>(
    leaf: &LeafView<'_, D>,
    from: u16,
    end: u16,
    sorting: &S,
    table: &mut [u64],
)
    requires order { from ≤ end }
    requires within { end ≤ length leaf.now }
    ensures { (live : LiveSet) → All (λ x. is_live live x.doc ≡ true) leaf.now
        → RaisesCounts (live_at (S.bounds sorting.now) (S.place sorting.now) live (take from leaf.now))
        (live_at (S.bounds sorting.now) (S.place sorting.now) live (take end leaf.now)) table.old table.new }
{
    for i in from..end {
        let Some(place) = sorting.place_of(&leaf.point(i)) else {
            continue;
        };
        add(table, place, 1);
    }
}

/// How many of the entries from `i` to `next` have a coordinate up to the cut in dimension `d`.
fn count_to<const D: usize>(leaf: &LeafView<'_, D>, d: usize, cut: &i32, i: u16, next: u16) -> u16
    requires dimension { d < D }
    requires order { i < next }
    requires within { next ≤ length leaf.now }
    ensures few { result ≤ next - i }
    ensures value { count_by (is_up_to d cut.now) (take i leaf.now) + result
        ≡ count_by (is_up_to d cut.now) (take next leaf.now) }
{
    let mut below = 0u16;
    for k in i..next {
        if leaf.coordinate(k, d) > *cut {
            continue;
        }
        below += 1;
    }
    below
}

/// Whether all points of a cell that lies so are counted at one place, or none is.
fn is_settled(lie: &Lie) -> bool
    ensures { result ≡ is_settled lie.now }
{
    match lie {
        Lie::Outside => true,
        Lie::At(_) => true,
        Lie::Parted => false,
    }
}

/// Whether both are settled.
fn are_settled(front: &Lie, back: &Lie) -> bool
    ensures { IsTrue result → (is_settled front.now ≡ true) × (is_settled back.now ≡ true) }
{
    if !is_settled(front) {
        return false;
    }
    is_settled(back)
}

/// Adds so many points of one cell, and so many of another.
fn add_both(table: &mut [u64], front: &Lie, below: u64, back: &Lie, above: u64)
    ensures { AddsCounts (λ k. settled_at front.now below k + settled_at back.now above k) table.old table.new }
{
    add_all(table, front, below);
    add_all(table, back, above);
}

/// Adds so many points of a cell that lies so, where it is settled.
fn add_all(table: &mut [u64], lie: &Lie, more: u64)
    ensures { AddsCounts (settled_at lie.now more) table.old table.new }
{
    if let Lie::At(place) = lie {
        add(table, *place, more);
    }
}

/// The part of the cell from `low` to `high` in dimension `d`; the cell itself where there is none.
fn narrowed<const D: usize>(cell: &Cell<D>, d: usize, low: &i32, high: &i32) -> Cell<D>
    requires { d < D }
    ensures { (p : List ℤ) → in_box (region_of cell.now) p ≡ true
        → int_le low.now (slice_index_or p d (pos 0)) ≡ true → int_le (slice_index_or p d (pos 0)) high.now ≡ true
        → in_box (region_of result) p ≡ true }
{
    let mut lo = *cell.lo();
    let mut hi = *cell.hi();
    lo.c[d] = *low;
    hi.c[d] = *high;
    match Cell::new(lo, hi) {
        Some(part) => part,
        None => *cell,
    }
}
