//! What is asked of documents, and what is replied.

use point_codec::{Near, Point};
use ring_parity::Rings;
use std::marker::Model;

/// What is asked of documents of `D` dimensions.
#[derive(Drop)]
pub enum Query<const D: usize> {
    /// Which documents have a point in the box.
    InBox { lo: Point<D>, hi: Point<D> },
    /// Which documents have a point in the polygon.
    Polygon(Rings),
    /// Which `k` documents are nearest to `at`.
    Nearest { k: u16, at: Point<D> },
}

/// A list of numbers of documents. Contracts see the numbers in their order.
#[derive(Debug, Drop)]
pub struct Docs {
    list: Vec<u32>,
}

impl Model for Docs {
    ghost use Rattle.std.specs.Prelude.{List, ℕ};

    ghost Value = { List ℕ };

    ghost view = { λ d. d.list.items };
}

impl Docs {
    ghost use Rattle.std.specs.Prelude.{◌≡◌};

    /// These numbers, in their order.
    pub fn new(list: Vec<u32>) -> Docs
        ensures { result ≡ list.items }
    {
        Docs { list }
    }

    pub fn as_slice(&self) -> &[u32]
        ensures { result.now ≡ self.now }
    {
        self.list.as_slice()
    }
}

/// Documents that were found, each with its squared distance.
#[derive(Debug, Drop)]
pub struct Nears {
    list: Vec<Near>,
}

impl Model for Nears {
    ghost use Rattle.std.specs.Prelude.{List};
    ghost use Rattle.point_codec.specs.declared.entries.Near.{Near};

    ghost Value = { List Near };

    ghost view = { λ n. n.list.items };
}

impl Nears {
    ghost use Rattle.std.specs.Prelude.{◌≡◌};

    /// These documents, in their order.
    pub fn new(list: Vec<Near>) -> Nears
        ensures { result ≡ list.items }
    {
        Nears { list }
    }

    pub fn as_slice(&self) -> &[Near]
        ensures { result.now ≡ self.now }
    {
        self.list.as_slice()
    }
}

/// What is replied to a query.
#[derive(Debug, Drop)]
pub enum Reply {
    /// The numbers of the documents, ascending.
    Hits(Docs),
    /// The nearest documents, the nearest first. Of equally near ones the one with the smaller number comes first.
    Near(Nears),
}
