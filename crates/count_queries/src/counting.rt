//! What answers lines of counts: the segments of an index, or nothing where there is none.

ghost use Rattle.std.specs.Prelude.{◌≤◌};

use crate::answers::{answer_bare, answer_line};
use outer_io::Folder;
use page_cache::{PageCache, PageFault};
use segment_view::Segments;
use std::alloc::{AllocError, Global};
use world::Answers;

/// The segments of an index, and the pages of theirs that are kept.
#[derive(Drop)]
pub(crate) struct Counting<const D: usize> {
    pub(crate) segments: Segments<D>,
    pub(crate) cache: PageCache,
    ghost some: { 1 ≤ D },
    ghost few: { D ≤ 8 },
}

impl<const D: usize> Answers for Counting<D> {
    ghost use Rattle.count_queries.specs.Counted as counted;
    ghost use Rattle.count_queries.specs.Counts.{CountFits};

    ghost Scope = { counted.Scope };

    ghost tells = { counted.TellsCount };

    ghost fits = { λ it files s. CountFits D files it.segments it.cache s };

    fn answer<F: Folder>(
        &mut self,
        alloc: Global,
        folder: &mut F,
        number: u64,
        line: &[u8],
        reply: &mut Vec<u8>,
    ) -> Result<bool, PageFault> {
        answer_line(
            alloc,
            &self.segments,
            &mut self.cache,
            folder,
            number,
            line,
            reply,
        )
    }
}

/// Where no index is there.
#[derive(Drop)]
pub(crate) struct NoIndex;

impl Answers for NoIndex {
    ghost use Rattle.world.specs.Runs.{IsBare};
    ghost use Rattle.count_queries.specs.Counted as counted;

    ghost Scope = { counted.Scope };

    ghost tells = { counted.TellsCount };

    ghost fits = { λ _ _ s. IsBare counted.bare s };

    fn answer<F: Folder>(
        &mut self,
        alloc: Global,
        folder: &mut F,
        number: u64,
        line: &[u8],
        reply: &mut Vec<u8>,
    ) -> Result<bool, PageFault> {
        match answer_bare(number, line, reply) {
            Ok(refused) => Ok(refused),
            Err(AllocError) => Err(PageFault::Memory),
        }
    }
}
