//! A ring of drawn positions: the tree answers as the plain list of edges does.

use crate::asserts::same;
use edge_tree::EdgeTree;
use point_codec::{Cell, Point};
use ring_parity::{Ring, Rings, any_meets, odd, on_any};
use std::alloc::Global;
use std::process::Abort;
use std::test::Fail;

/// Draws by the minimal standard generator of Park and Miller.
#[derive(Drop)]
pub struct Draws(pub u64);

impl Draws {
    fn coordinate(&mut self) -> i32 {
        self.0 = self.0 % 2_147_483_647 * 48_271 % 2_147_483_647;
        (self.0 % 200_001) as i32 - 100_000
    }

    pub fn point(&mut self) -> Point<2> {
        Point {
            c: [self.coordinate(), self.coordinate()],
        }
    }
}

/// A ring of a thousand drawn positions.
pub fn drawn(alloc: Global, draws: &mut Draws) -> Result<Rings, Fail> {
    let first = draws.point();
    let mut at = Vec::new(alloc);
    at.push(first)?;
    for _ in 1..1000 {
        at.push(draws.point())?;
    }
    at.push(first)?;
    let mut list = Vec::new(alloc);
    list.push(Ring::new(at))?;
    Ok(Rings::new(list)?)
}

/// Whether the point is on an edge, whether it is in by the edges' parity, and whether it is within: by the tree.
fn by_the_tree(tree: &EdgeTree, p: &Point<2>) -> (bool, bool, bool) {
    (tree.on_any(p), tree.odd(p), tree.contains(p))
}

/// Whether it is on an edge, in by parity, and within: by the plain list.
fn by_the_list(rings: &Rings, p: &Point<2>) -> (bool, bool, bool) {
    let (on, odd) = (on_any(rings, p), odd(rings, p));
    (on, odd, on || odd)
}

/// An edge meets the square cell of this width at the point just where one of the plain list does.
fn meets(
    rt: &impl Abort,
    tree: &EdgeTree,
    rings: &Rings,
    p: &Point<2>,
    width: i32,
) -> Result<(), Fail> {
    let cell = cell_from(p, width).ok_or("a cell above its own corner")?;
    same(rt, tree.any_meets(&cell), any_meets(rings, &cell));
    Ok(())
}

#[test]
fn equals_the_plain_list(rt: HostRuntime) -> Result<(), Fail> {
    let mut draws = Draws(1);
    let rings = drawn(rt.alloc(), &mut draws)?;
    let tree = EdgeTree::new(rt.alloc(), &rings)?;
    for _ in 0..200 {
        let p = draws.point();
        same(&rt, by_the_tree(&tree, &p), by_the_list(&rings, &p));
        meets(&rt, &tree, &rings, &p, 2_000)?;
        meets(&rt, &tree, &rings, &p, 60_000)?;
    }
    Ok(())
}

/// The square cell of this width above and right of a point.
fn cell_from(p: &Point<2>, width: i32) -> Option<Cell<2>> {
    let far = Point {
        c: [p.c[0].saturating_add(width), p.c[1].saturating_add(width)],
    };
    Cell::new(*p, far)
}
