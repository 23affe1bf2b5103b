//! Polygons from GeoJSON (RFC 7946, 3.1.6).

ghost use Rattle.std.specs.Prelude.{◌≡◌, ◌-◌, ◌^◌, ◌≤◌, min, length, map, true, false, Ok, Err, IfOk, IfErr};
ghost use Rattle.std.specs.Prelude.{MatchOption, option_map, codes};
ghost use Rattle.std.specs.List.{list_all};
ghost use Rattle.point_codec.specs.Seen.{coordinates_of};
ghost use Rattle.serde_json.specs.View.{view};
ghost use Rattle.polygon_query.specs.GeoJson.{elements, is_array, member_of, names_polygon, coordinates};
ghost use Rattle.polygon_query.specs.GeoJson.{count_positions, coordinate, position, positions, ring_of, rings_of};
ghost use Rattle.polygon_query.specs.GeoJson.{polygon_in, polygon_of};
ghost use Rattle.polygon_query.specs.Refusals.{IsRefusal};

use point_codec::Point;
use ring_parity::{Ring, Rings};
use serde_json::Value;
use std::alloc::{AllocError, AllocFailed, Global};

/// Why a text is no polygon, in the order in which the faults are looked for: those of the whole text, then ring by
/// ring.
/// Rings and their positions count from 0.
#[derive(Clone, Copy, PartialEq, Eq, Debug)]
pub enum GeoFault {
    /// The text is no JSON, as serde_json reads it.
    NotJson,
    /// It is no object of the type `Polygon` whose coordinates are an array of arrays.
    NotPolygon,
    /// More than 65,536 positions in all.
    TooMany,
    /// The first position of the ring that isn't an array of two whole numbers of 32 bits.
    NotWhole { ring: u32, position: u32 },
    /// A ring of fewer than four positions.
    TooFew { ring: u32 },
    /// A ring whose last position is not its first.
    NotClosed { ring: u32 },
}

/// Why no polygon was read.
#[derive(Clone, Copy, PartialEq, Eq, Debug)]
pub enum GeoRefused {
    /// The text has this fault.
    Fault(GeoFault),
    /// There was not enough memory; nothing is said of the text.
    Memory,
}

impl From<GeoFault> for GeoRefused {
    ghost use Rattle.std.specs.Prelude.{◌≡◌};
    ghost use Rattle.polygon_query.specs.declared.geo_json.GeoRefused.TheVariants.{Fault};

    ghost from_gives = { λ fault e. e ≡ Fault fault };

    fn from(fault: GeoFault) -> GeoRefused {
        GeoRefused::Fault(fault)
    }
}

impl From<AllocError> for GeoRefused {
    ghost use Rattle.std.specs.Prelude.{◌≡◌};
    ghost use Rattle.polygon_query.specs.declared.geo_json.GeoRefused.TheVariants.{Memory};

    ghost from_gives = { λ _ e. e ≡ Memory };

    fn from(_wanted: AllocError) -> GeoRefused {
        GeoRefused::Memory
    }
}

impl<T: Drop> From<AllocFailed<T>> for GeoRefused {
    ghost use Rattle.std.specs.Prelude.{◌≡◌};
    ghost use Rattle.polygon_query.specs.declared.geo_json.GeoRefused.TheVariants.{Memory};

    ghost from_gives = { λ _ e. e ≡ Memory };

    fn from(_wanted: AllocFailed<T>) -> GeoRefused {
        GeoRefused::Memory
    }
}

/// The polygon of a text.
#[tactic(auto, unfolding(crate::specs::GeoJson::polygon_of))]
pub fn read_polygon(alloc: Global, text: &str) -> Result<Rings, GeoRefused>
    ensures polygon { IfOk result (λ rings. polygon_of text.now ≡ Ok rings) }
    ensures refused { IfErr result (IsRefusal (polygon_of text.now)) }
{
    match Value::from_str(alloc, text) {
        Ok(value) => polygon_in(alloc, &value),
        Err(e) if e.is_memory() => Err(GeoRefused::Memory),
        Err(_) => Err(GeoFault::NotJson.into()),
    }
}

/// The polygon of a JSON value.
fn polygon_in(alloc: Global, value: &Value) -> Result<Rings, GeoRefused>
    ensures polygon { IfOk result (λ rings. polygon_in (view value.now) ≡ Ok rings) }
    ensures refused { IfErr result (IsRefusal (polygon_in (view value.now))) }
{
    if !names_polygon(value) {
        return Err(GeoFault::NotPolygon.into());
    }
    let rings = coordinates(value).ok_or(GeoFault::NotPolygon)?;
    let positions = count_positions(rings).ok_or(GeoFault::NotPolygon)?;
    if positions > Rings::MAX_POSITIONS {
        return Err(GeoFault::TooMany.into());
    }
    rings_of(alloc, rings)
}

/// Whether the value is an object of the type `Polygon`.
fn names_polygon(value: &Value) -> bool
    ensures { result ≡ names_polygon (view value.now) }
{
    value
        .get("type")
        .and_then(Value::as_str)
        .is_some_and(|name| name == "Polygon")
}

/// The coordinates of a polygon. None where they are no array.
fn coordinates(value: &Value) -> Option<&[Value]>
    ensures { MatchOption result (is_array (member_of (codes "coordinates") (view value.now)) ≡ false)
        (λ rings. (is_array (member_of (codes "coordinates") (view value.now)) ≡ true)
        × (map view rings.now ≡ coordinates (view value.now))) }
{
    match value.get("coordinates") {
        Some(member) => array_in(member),
        None => None,
    }
}

/// The elements of an array. None for every other value.
fn array_in(value: &Value) -> Option<&[Value]>
    ensures { MatchOption result (is_array (view value.now) ≡ false)
        (λ list. (is_array (view value.now) ≡ true) × (map view list.now ≡ elements (view value.now))) }
{
    if value.is_array() {
        Some(elements(value))
    } else {
        None
    }
}

/// The elements of an array, none of every other value.
#[tactic(auto, using(crate::proofs::Arrays::arrays))]
fn elements(value: &Value) -> &[Value]
    ensures { map view result.now ≡ elements (view value.now) }
{
    match value.as_array() {
        Some(list) => list.as_slice(),
        None => &[],
    }
}

/// The number of positions of all rings, or the greatest number of 64 bits where that is less. None where one is no
/// array.
fn count_positions(rings: &[Value]) -> Option<u64>
    ensures { MatchOption result (list_all is_array (map view rings.now) ≡ false)
        (λ n. (list_all is_array (map view rings.now) ≡ true)
        × (n ≡ min (count_positions (map view rings.now)) (2 ^ 64 - 1))) }
{
    let mut positions: u64 = 0;
    for ring in rings {
        positions = positions.saturating_add(array_in(ring)?.len() as u64);
    }
    Some(positions)
}

/// The polygon of these rings.
fn rings_of(alloc: Global, rings: &[Value]) -> Result<Rings, GeoRefused>
    requires { count_positions (map view rings.now) ≤ 2 ^ 16 }
    ensures polygon { IfOk result (λ polygon. rings_of 0 (map view rings.now) ≡ Ok polygon) }
    ensures refused { IfErr result (IsRefusal (rings_of 0 (map view rings.now))) }
{
    let mut list = Vec::new(alloc);
    for (number, ring) in rings.iter().enumerate() {
        list.push(ring_of(alloc, number as u32, elements(ring))?)?;
    }
    let Ok(polygon) = Rings::new(list) else {
        unreachable!()
    };
    Ok(polygon)
}

/// The ring of these positions.
fn ring_of(alloc: Global, ring: u32, positions: &[Value]) -> Result<Ring, GeoRefused>
    requires { length positions.now ≤ 2 ^ 16 }
    ensures ring { IfOk result (λ r. ring_of ring (map view positions.now) ≡ Ok r) }
    ensures refused { IfErr result (IsRefusal (ring_of ring (map view positions.now))) }
{
    let at = positions_of(alloc, ring, positions)?;
    if at.len() < 4 {
        return Err(GeoFault::TooFew { ring }.into());
    }
    if at[0] != at[at.len() - 1] {
        return Err(GeoFault::NotClosed { ring }.into());
    }
    Ok(Ring::new(at))
}

/// The positions of a ring.
fn positions_of(alloc: Global, ring: u32, list: &[Value]) -> Result<Vec<Point<2>>, GeoRefused>
    requires { length list.now ≤ 2 ^ 16 }
    ensures positions { IfOk result (λ at. positions ring 0 (map view list.now) ≡ Ok (coordinates_of at.items)) }
    ensures refused { IfErr result (IsRefusal (positions ring 0 (map view list.now))) }
{
    let mut at = Vec::with_capacity(alloc, list.len())?;
    for (number, value) in list.iter().enumerate() {
        let point = position(value).ok_or(GeoFault::NotWhole {
            ring,
            position: number as u32,
        })?;
        at.push(point)?;
    }
    Ok(at)
}

/// The point of a position.
fn position(value: &Value) -> Option<Point<2>>
    ensures { option_map (λ p. p.c) result ≡ position (view value.now) }
{
    let [x, y] = array_in(value)? else {
        return None;
    };
    Some(Point {
        c: [coordinate(x)?, coordinate(y)?],
    })
}

/// A number of 32 bits that is written without a fraction or an exponent.
fn coordinate(value: &Value) -> Option<i32>
    ensures { result ≡ coordinate (view value.now) }
{
    i32::try_from(value.as_i64()?).ok()
}
