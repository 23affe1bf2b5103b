//! Leaves read over and over.

use leaf_codec::LeafView;
use point_codec::{Cell, Point};

/// How many of the reads of a leaf of two dimensions found one, and the sum of all numbers and coordinates that they
/// gave.
pub fn read_over(leaf: &[u8], count: u16, times: u32) -> (u32, u64) {
    let mut found = 0u32;
    let mut sum = 0u64;
    let Some(cell) = whole() else {
        return (found, sum);
    };
    for _ in 0..times {
        if let Some(view) = LeafView::read(leaf, &cell, count) {
            found = found.wrapping_add(1);
            sum = sum.wrapping_add(sum_of(&view));
        }
    }
    (found, sum)
}

/// The cell of all points.
fn whole() -> Option<Cell<2>> {
    Cell::new(Point { c: [i32::MIN; 2] }, Point { c: [i32::MAX; 2] })
}

/// The sum of the numbers and the coordinates, each as 32 bits without a sign.
fn sum_of(view: &LeafView<'_, 2>) -> u64 {
    let mut sum = 0u64;
    for i in 0..view.count() {
        let [x, y] = view.point(i).c;
        sum = sum
            .wrapping_add(u64::from(view.doc(i)))
            .wrapping_add(u64::from(x.cast_unsigned()))
            .wrapping_add(u64::from(y.cast_unsigned()));
    }
    sum
}
