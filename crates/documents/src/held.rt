//! A document in memory, which owns a copy of its points.

ghost use Rattle.std.specs.Prelude.{◌≡◌, ◌≤◌, IfOk};
ghost use Rattle.point_codec.specs.Points.{ArePoints};
ghost use Rattle.point_codec.specs.Seen.{coordinates_of};

use point_codec::{Point, Points};
use std::alloc::{AllocError, Global};
use std::marker::Model;

/// The error of a call for which no memory could be had.
pub type Memory = AllocError;

/// A document that is held in memory: its number and its points.
#[derive(Drop)]
pub struct HeldDocument<const D: usize> {
    number: u32,
    points: Vec<Point<D>>,
}

impl<const D: usize> Model for HeldDocument<D> {
    ghost use Rattle.point_codec.specs.Points.{ArePoints};
    ghost use Rattle.point_codec.specs.Seen.{coordinates_of};
    ghost use Rattle.documents.specs.Documents.{Document};

    ghost Value = { Document };

    ghost view = { λ d. record { number = d.number; points = coordinates_of d.points.items } };

    ghost invariant = { λ d. ArePoints (coordinates_of d.points.items) };
}

impl<const D: usize> HeldDocument<D> {
    /// A document of this number with a copy of the points.
    pub fn new(alloc: Global, number: u32, points: &Points<D>) -> Result<HeldDocument<D>, Memory>
        requires { D ≤ 8 }
        ensures { IfOk result (λ d. d ≡ record { number = number; points = points.now }) }
    {
        Ok(HeldDocument {
            number,
            points: Vec::from_slice(alloc, points.as_slice())?,
        })
    }

    /// The same document once more.
    pub fn copy(&self, alloc: Global) -> Result<HeldDocument<D>, Memory>
        ensures { IfOk result (λ d. d ≡ self.now) }
    {
        Ok(HeldDocument {
            number: self.number,
            points: Vec::from_slice(alloc, self.points.as_slice())?,
        })
    }

    /// The number of the document.
    pub fn number(&self) -> u32
        ensures { result ≡ self.now.number }
    {
        self.number
    }

    /// The points, 1 to 16 in ascending order.
    pub fn points(&self) -> &[Point<D>]
        ensures value { coordinates_of result.now ≡ self.now.points }
        ensures points { ArePoints self.now.points }
    {
        self.points.as_slice()
    }
}
