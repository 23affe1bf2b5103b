use crate::asserts::{same, same_at};
use cell_relate::{Relation, Shape};
use point_codec::{Cell, Point};
use polygon_query::GeoFault::{NotClosed, NotJson, NotPolygon, NotWhole, TooFew, TooMany};
use polygon_query::{GeoFault, GeoRefused, PolygonShape, read_polygon};
use std::alloc::{AllocError, Global};
use std::test::Fail;

const SQUARES: &str = r#"{"type":"Polygon","coordinates":[
    [[0,0],[10,0],[10,10],[0,10],[0,0]],
    [[4,4],[6,4],[6,6],[4,6],[4,4]]]}"#;

// how many rings a text has, or its fault
fn read(alloc: Global, text: &str) -> Result<Result<usize, GeoFault>, AllocError> {
    match read_polygon(alloc, text) {
        Ok(rings) => Ok(Ok(rings.as_slice().len())),
        Err(GeoRefused::Fault(fault)) => Ok(Err(fault)),
        Err(GeoRefused::Memory) => Err(AllocError),
    }
}

// a polygon's text with these coordinates
fn polygon(alloc: Global, coordinates: &str) -> Result<String, AllocError> {
    let mut text = String::from_str(alloc, r#"{"type":"Polygon","coordinates":"#)?;
    text.push_str(coordinates)?;
    text.push_str("}")?;
    Ok(text)
}

// the piece so many times, parted by commas
fn repeated(alloc: Global, piece: &str, times: usize) -> Result<String, AllocError> {
    let mut text = String::from_str(alloc, "[")?;
    for i in 0..times {
        if i > 0 {
            text.push_str(",")?;
        }
        text.push_str(piece)?;
    }
    text.push_str("]")?;
    Ok(text)
}

/// Texts, and how many rings they have or their fault.
const TEXTS: [(&str, Result<usize, GeoFault>); 13] = [
    ("", Err(NotJson)),
    ("{", Err(NotJson)),
    (
        r#"{"type":"Polygon","coordinates":[[[1e400,0]]]}"#,
        Err(NotJson),
    ),
    ("null", Err(NotPolygon)),
    ("[]", Err(NotPolygon)),
    (r#"{"type":"Point","coordinates":[0,0]}"#, Err(NotPolygon)),
    (r#"{"type":null,"coordinates":[]}"#, Err(NotPolygon)),
    (r#"{"type":"polygon","coordinates":[]}"#, Err(NotPolygon)),
    (r#"{"coordinates":[]}"#, Err(NotPolygon)),
    (r#"{"type":"Polygon"}"#, Err(NotPolygon)),
    // of members with one name the last counts
    (
        r#"{"type":"Polygon","type":"Point","coordinates":[]}"#,
        Err(NotPolygon),
    ),
    (
        r#"{"type":"Point","coordinates":1,"bbox":[0.5],"coordinates":[],"type":"Polygon"}"#,
        Ok(0),
    ),
    (SQUARES, Ok(2)),
];

#[test]
fn texts(rt: HostRuntime) -> Result<(), Fail> {
    for (text, told) in TEXTS {
        same_at(&rt, read(rt.alloc(), text)?, told, &text);
    }
    Ok(())
}

/// Coordinates, and how many rings they have or their fault.
const COORDINATES: [(&str, Result<usize, GeoFault>); 10] = [
    ("null", Err(NotPolygon)),
    ("[null]", Err(NotPolygon)),
    ("[[[0.5,0]],7]", Err(NotPolygon)),
    ("[]", Ok(0)),
    ("[[]]", Err(TooFew { ring: 0 })),
    ("[[[0,0],[4,0],[0,0]]]", Err(TooFew { ring: 0 })),
    ("[[[0,0],[4,0],[4,4],[0,4]]]", Err(NotClosed { ring: 0 })),
    (
        "[[[-2147483648,2147483647],[0,0],[0,1],[-2147483648,2147483647]]]",
        Ok(1),
    ),
    (
        "[[[0,0],[4,0],[4,4],[0,0]],[[0,0],[4,0],[4,4],[0,1]]]",
        Err(NotClosed { ring: 1 }),
    ),
    // ring by ring: what the first ring lacks comes before a position of the second
    (
        "[[[0,0],[4,0],[4,4],[0,4]],[[0.5,0]]]",
        Err(NotClosed { ring: 0 }),
    ),
];

/// Rings with a position that isn't two whole numbers: which ring, and which position.
const NOT_WHOLE: [(&str, u32, u32); 13] = [
    ("[[null]]", 0, 0),
    ("[[[null,0]]]", 0, 0),
    ("[[[\"0\",0]]]", 0, 0),
    ("[[[0,0],[1.5,0],[4,4],[0,0]]]", 0, 1),
    ("[[[0,0],[0,1.0]]]", 0, 1),
    ("[[[0,0],[0,0],[1e2,0]]]", 0, 2),
    ("[[[0,-0]]]", 0, 0),
    ("[[[2147483648,0]]]", 0, 0),
    ("[[[0,-2147483649]]]", 0, 0),
    ("[[[18446744073709551616,0]]]", 0, 0),
    ("[[[0]]]", 0, 0),
    ("[[[0,0,0]]]", 0, 0),
    (
        "[[[0,0],[4,0],[4,4],[0,0]],[[0,0],[0,0],[0,0],[0.5,0]],[]]",
        1,
        3,
    ),
];

/// What coordinates are read as.
fn told_of(alloc: Global, coordinates: &str) -> Result<Result<usize, GeoFault>, AllocError> {
    let text = polygon(alloc, coordinates)?;
    read(alloc, text.as_str())
}

#[test]
fn coordinates(rt: HostRuntime) -> Result<(), Fail> {
    for (text, told) in COORDINATES {
        same_at(&rt, told_of(rt.alloc(), text)?, told, &text);
    }
    Ok(())
}

#[test]
fn positions(rt: HostRuntime) -> Result<(), Fail> {
    for (text, ring, position) in NOT_WHOLE {
        let told = Err(NotWhole { ring, position });
        same_at(&rt, told_of(rt.alloc(), text)?, told, &text);
    }
    Ok(())
}

/// A piece of coordinates, how often it stands there, and what is told of them.
const REPEATED: [(&str, usize, Result<usize, GeoFault>); 2] = [
    ("[]", 70_000, Err(TooFew { ring: 0 })),
    ("[[7,8],[7,8],[7,8],[7,8]]", 16_384, Ok(16_384)),
];

#[test]
fn limits(rt: HostRuntime) -> Result<(), Fail> {
    for (piece, times, told) in REPEATED {
        let coordinates = repeated(rt.alloc(), piece, times)?;
        same_at(
            &rt,
            told_of(rt.alloc(), coordinates.as_str())?,
            told,
            &piece,
        );
    }
    Ok(())
}

/// One ring of 65,537 positions of half a number.
fn halves(alloc: Global) -> Result<String, AllocError> {
    let ring = repeated(alloc, "[0.5]", 65_537)?;
    repeated(alloc, ring.as_str(), 1)
}

#[test]
fn too_many_positions_come_before_any_that_is_not_whole(rt: HostRuntime) -> Result<(), Fail> {
    let coordinates = halves(rt.alloc())?;
    same(
        &rt,
        told_of(rt.alloc(), coordinates.as_str())?,
        Err(TooMany),
    );
    Ok(())
}

/// An object with so many brackets within it.
fn deep(alloc: Global, brackets: usize) -> Result<String, AllocError> {
    let mut text = String::from_str(alloc, r#"{"deep":"#)?;
    for _ in 0..brackets {
        text.push_str("[")?;
    }
    for _ in 0..brackets {
        text.push_str("]")?;
    }
    text.push_str("}")?;
    Ok(text)
}

/// 126 brackets within the object are 127 in all, and one more is beyond serde_json's limit.
const BRACKETS: [(usize, Result<usize, GeoFault>); 2] = [
    (126, Err(NotPolygon)),
    (127, Err(NotJson)),
];

#[test]
fn brackets(rt: HostRuntime) -> Result<(), Fail> {
    for (brackets, told) in BRACKETS {
        let text = deep(rt.alloc(), brackets)?;
        same_at(&rt, read(rt.alloc(), text.as_str())?, told, &brackets);
    }
    Ok(())
}

// as a walk asks, which knows no more than the bound
fn ask<const D: usize, S: Shape<D>>(
    shape: &mut S,
    lo: Point<D>,
    hi: Point<D>,
) -> Option<(Relation, bool)> {
    let cell = Cell::new(lo, hi)?;
    let relation = shape.compare(&cell);
    Some((relation, shape.contains(cell.lo())))
}

fn squares(alloc: Global) -> Result<PolygonShape, Fail> {
    match read_polygon(alloc, SQUARES) {
        Ok(rings) => Ok(PolygonShape::new(alloc, &rings)?),
        Err(_) => Err("no polygon")?,
    }
}

/// Cells; how they lie to the squares, and whether their lower corner is within.
const CELLS: [([i32; 2], [i32; 2], (Relation, bool)); 7] = [
    ([1, 1], [3, 3], (Relation::Inside, true)),
    ([3, 3], [7, 7], (Relation::Crosses, true)),
    ([11, 0], [12, 1], (Relation::Outside, false)),
    ([10, 10], [12, 12], (Relation::Crosses, true)),
    ([5, 5], [5, 5], (Relation::Outside, false)),
    ([4, 5], [4, 5], (Relation::Crosses, true)),
    ([-5, -5], [20, 20], (Relation::Crosses, false)),
];

#[test]
fn a_square_with_a_hole(rt: HostRuntime) -> Result<(), Fail> {
    let mut shape = squares(rt.alloc())?;
    for (lo, hi, told) in CELLS {
        let asked = ask(&mut shape, Point { c: lo }, Point { c: hi });
        same_at(&rt, asked, Some(told), &(lo, hi));
    }
    same(&rt, (shape.tests(), shape.compares()), (7, 7));
    Ok(())
}

const TRIANGLE: &str = r#"{"type":"Polygon","coordinates":[[[-3,1],[8,2],[5,7],[-3,1]]]}"#;

// between which coordinates of the plane the polygon lies
fn reaches<S: Shape<2>>(shape: &S) -> [Option<(i32, i32)>; 2] {
    [shape.reach(0), shape.reach(1)]
}

#[test]
fn how_far_a_polygon_reaches(rt: HostRuntime) -> Result<(), Fail> {
    match read_polygon(rt.alloc(), TRIANGLE) {
        Ok(rings) => {
            let shape = PolygonShape::new(rt.alloc(), &rings)?;
            same(&rt, reaches(&shape), [Some((-3, 8)), Some((1, 7))]);
            Ok(())
        }
        Err(_) => Err("no polygon")?,
    }
}

const OUTSIDE: Option<(Relation, bool)> = Some((Relation::Outside, false));

#[test]
fn other_dimensions(rt: HostRuntime) -> Result<(), Fail> {
    let mut shape = squares(rt.alloc())?;
    let of_one = ask(&mut shape, Point { c: [1] }, Point { c: [3] });
    same(&rt, of_one, OUTSIDE);
    let of_three = ask(&mut shape, Point { c: [1; 3] }, Point { c: [3; 3] });
    same(&rt, of_three, OUTSIDE);
    Ok(())
}
