//! What answers the lines of queries that are explained: the set of an index, or nothing where there is none.

ghost use Rattle.std.specs.Prelude.{◌≤◌};

use crate::explain::{explain_first, explain_line};
use outer_io::Folder;
use page_cache::PageFault;
use segment_set::SegmentSet;
use std::alloc::{AllocError, Global};
use world::Answers;

/// The set of an index.
#[derive(Drop)]
pub(crate) struct Explaining<const D: usize> {
    pub(crate) set: SegmentSet<D>,
    ghost some: { 1 ≤ D },
    ghost few: { D ≤ 8 },
}

impl<const D: usize> Answers for Explaining<D> {
    ghost use Rattle.explain_queries.specs.Explained as explained;
    ghost use Rattle.explain_queries.specs.Explains.{ExplainFits};

    ghost Scope = { explained.Scope };

    ghost tells = { explained.TellsLine };

    ghost fits = { λ it files s. ExplainFits D files it.set s };

    fn answer<F: Folder>(
        &mut self,
        alloc: Global,
        folder: &mut F,
        number: u64,
        line: &[u8],
        reply: &mut Vec<u8>,
    ) -> Result<bool, PageFault> {
        explain_line(alloc, &mut self.set, folder, number, line, reply)
    }
}

/// Where no index is there.
#[derive(Drop)]
pub(crate) struct NoIndex;

impl Answers for NoIndex {
    ghost use Rattle.world.specs.Runs.{IsBare};
    ghost use Rattle.explain_queries.specs.Explained as explained;

    ghost Scope = { explained.Scope };

    ghost tells = { explained.TellsLine };

    ghost fits = { λ _ _ s. IsBare explained.bare s };

    fn answer<F: Folder>(
        &mut self,
        alloc: Global,
        folder: &mut F,
        number: u64,
        line: &[u8],
        reply: &mut Vec<u8>,
    ) -> Result<bool, PageFault> {
        match explain_first(number, line, reply) {
            Ok(refused) => Ok(refused),
            Err(AllocError) => Err(PageFault::Memory),
        }
    }
}
