//! Notes on polygons that were refused.

use crate::shown::Shown;
use std::alloc::AllocError;

const POLYGON: &str =
    r#"as in: polygon {"type":"Polygon","coordinates":[[[0,0],[4,0],[4,4],[0,0]]]}"#;

/// Appends what is said of a polygon in this line that was refused for this cause.
pub(crate) fn put_polygon(note: &mut String, line: &str, cause: &str) -> Result<(), AllocError> {
    match cause {
        "polygon is not json" => write!(note, "JSON is expected, {POLYGON}"),
        "not a polygon" => write!(note, "a Polygon is expected, {POLYGON}"),
        "polygon has too many positions" => {
            note.push_str(
                "a polygon has 65,536 positions at most, the last one of each ring among them",
            )
        }
        _ => match ring_of(cause) {
            Some((ring, fault)) => put_ring(note, line, ring, fault),
            None => Ok(()),
        },
    }
}

/// The ring that a cause names, counted from 0, and what it says of it.
fn ring_of(cause: &str) -> Option<(usize, &str)> {
    let (ring, fault) = cause.strip_prefix("polygon ring ")?.split_once(" ")?;
    Some((ring.parse::<usize>().ok()?, fault))
}

fn put_ring(note: &mut String, line: &str, ring: usize, fault: &str) -> Result<(), AllocError> {
    let first = Shown(position(line, ring, 0).unwrap_or("the first position"));
    match fault {
        "is not closed" => {
            write!(
                note,
                "ring {ring}, counted from 0, is to end where it begins: {first} is wanting at its end"
            )
        }
        "has too few positions" => {
            write!(
                note,
                "ring {ring}, counted from 0, is to have 4 positions at least, of which the last is the first"
            )
        }
        _ => match whole_of(fault) {
            Some(place) => {
                let text = Shown(position(line, ring, place).unwrap_or("it"));
                write!(
                    note,
                    "ring {ring}, position {place}, counted from 0: {text} is to be two whole numbers from \
                    -2147483648 to 2147483647"
                )
            }
            None => Ok(()),
        },
    }
}

/// The position that isn't whole.
fn whole_of(fault: &str) -> Option<usize> {
    let place = fault
        .strip_prefix("position ")?
        .strip_suffix(" is not whole")?;
    place.parse::<usize>().ok()
}

/// The text of a position: what stands in the third brackets behind `coordinates`.
fn position(line: &str, ring: usize, place: usize) -> Option<&str> {
    let (_, rest) = line.split_once("\"coordinates\"")?;
    let bytes = rest.as_bytes();
    let (mut depth, mut rings, mut places, mut begun) = (0_usize, 0_usize, 0_usize, 0);
    for (i, b) in bytes.iter().enumerate() {
        match *b {
            b'[' => {
                depth = depth.saturating_add(1);
                if depth == 3 {
                    begun = i;
                }
            }
            b']' => {
                if depth == 3 && rings == ring && places == place {
                    return std::str::from_utf8(bytes.get(begun..i.saturating_add(1))?).ok();
                }
                if depth == 3 {
                    places = places.saturating_add(1);
                }
                if depth == 2 {
                    rings = rings.saturating_add(1);
                    places = 0;
                }
                depth = depth.saturating_sub(1);
            }
            _ => {}
        }
    }
    None
}
