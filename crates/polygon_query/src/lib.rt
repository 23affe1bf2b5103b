//! Polygons: read from GeoJSON, and asked as shapes.
#![tactic(auto)]

pub mod geo_json;
pub mod polygon_shape;

pub use geo_json::{GeoFault, GeoRefused, read_polygon};
pub use polygon_shape::{Memory, PolygonShape};
