//! The scans of a list of documents.

ghost use Rattle.std.specs.Prelude.{◌≡◌, ◌≤◌, IfOk};
ghost use Rattle.std.specs.List.{list_any};
ghost use Rattle.point_codec.specs.Seen.{coordinates_of};
ghost use Rattle.documents.specs.Documents.{hits};
ghost use Rattle.documents.specs.Nearest.{distance, distances, nearest, found_of};

use crate::held::{HeldDocument, Memory};
use cell_relate::Shape;
use point_codec::{Near, Point};
use std::alloc::Global;

/// The numbers of the documents of which the shape has a point, in the list's order.
pub fn scan_hits<const D: usize, S: Shape<D>>(
    alloc: Global,
    docs: &[HeldDocument<D>],
    shape: &mut S,
) -> Result<Vec<u32>, Memory>
    requires { D ≤ 8 }
    ensures hits { IfOk result (λ v. v.items ≡ hits (S.has shape.old) docs.now) }
    ensures has { S.has shape.new ≡ S.has shape.old }
{
    let mut found = Vec::new(alloc);
    for doc in docs {
        if has_some(shape, doc.points()) {
            found.push(doc.number())?;
        }
    }
    Ok(found)
}

/// Whether the shape has one of the points.
pub fn has_some<const D: usize, S: Shape<D>>(shape: &mut S, points: &[Point<D>]) -> bool
    ensures value { result ≡ list_any (S.has shape.old) (coordinates_of points.now) }
    ensures has { S.has shape.new ≡ S.has shape.old }
{
    for point in points {
        if shape.contains(point) {
            return true;
        }
    }
    false
}

/// The `k` documents that are nearest to a point, by the least squared distance of their points and then by number.
pub fn scan_nearest<const D: usize>(
    alloc: Global,
    docs: &[HeldDocument<D>],
    at: &Point<D>,
    k: u16,
) -> Result<Vec<Near>, Memory>
    requires { D ≤ 8 }
    ensures { IfOk result (λ v. found_of v.items ≡ nearest k at.now.c docs.now) }
{
    let mut found = distances(alloc, docs, at)?;
    found.sort_unstable();
    // no two documents have one number, so this only says that the order is strict
    found.dedup();
    found.truncate(usize::from(k));
    Ok(found)
}

/// Each document with its distance from a point.
fn distances<const D: usize>(
    alloc: Global,
    docs: &[HeldDocument<D>],
    at: &Point<D>,
) -> Result<Vec<Near>, Memory>
    requires { D ≤ 8 }
    ensures { IfOk result (λ v. found_of v.items ≡ distances at.now.c docs.now) }
{
    let mut found = Vec::new(alloc);
    for doc in docs {
        found.push(Near {
            doc: doc.number(),
            dist2: least_distance(doc.points(), at),
        })?;
    }
    Ok(found)
}

/// The least squared distance of the points from a point, and 0 where there are none.
fn least_distance<const D: usize>(points: &[Point<D>], at: &Point<D>) -> u128
    ensures { result ≡ distance at.now.c (coordinates_of points.now) }
{
    let [first, rest @ ..] = points else {
        return 0;
    };
    let mut least = first.dist2(at);
    for point in rest {
        least = least.min(point.dist2(at));
    }
    least
}
