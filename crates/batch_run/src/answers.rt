//! The reply to one query, and those to some queries one after the other.

ghost use Rattle.std.specs.Prelude.{◌≡◌, ◌≤◌, List, Ok, All, map, IfOk, IsErrOf};
ghost use Rattle.documents.specs.Documents.{Document, hits};
ghost use Rattle.documents.specs.Nearest.{nearest};
ghost use Rattle.outer_io.specs.MemFolder.{folder_files};
ghost use Rattle.page_cache.specs.declared.faults.PageFault.TheVariants as page;
ghost use Rattle.page_cache.specs.Cache.{Agrees};
ghost use Rattle.page_cache.specs.Evidence.{NotDamaged};
ghost use Rattle.batch_run.specs.Held.{HoldsDocs};
ghost use Rattle.batch_run.specs.Residents.{AreReplies};
ghost use Rattle.batch_run.specs.Queries.{IsInRange, near_of, reply_of};

use crate::Memory;
use crate::pages::SharedPages;
use crate::queries::{Docs, Nears, Query, Reply};
use crate::resident::Resident;
use cell_relate::{BoxShape, Shape};
use documents::{docs_hits, docs_nearest};
use page_cache::{PageCache, PageFault};
use point_codec::{Near, Point};
use polygon_query::PolygonShape;
use segment_view::{Segments, nearest, visit};
use std::alloc::{AllocError, Global};

/// The replies to queries, one after the other. So many pages of the copy are kept, with what is known of them.
pub(crate) fn answer_all<const D: usize>(
    alloc: Global,
    resident: &Resident<D>,
    queries: &[Query<D>],
    kept: u32,
) -> Result<Vec<Reply>, Memory>
    requires range { All (IsInRange D) queries.now }
    requires some { 1 ≤ kept }
    requires few { kept ≤ 65536 }
    ensures { IfOk result (λ v. AreReplies resident.now queries.now v.items) }
{
    let mut cache = PageCache::new(alloc, kept)?;
    let mut pages = resident.pages();
    let segments = resident.segments();
    // there are at most 8 dimensions, so that a query is small
    let _parts = segments.len();
    let mut replies = Vec::with_capacity(alloc, queries.len())?;
    for query in queries {
        let reply = answer(alloc, segments, &mut cache, &mut pages, query)?;
        replies.push(reply)?;
    }
    Ok(replies)
}

/// The reply to a query.
fn answer<const D: usize>(
    alloc: Global,
    segments: &Segments<D>,
    cache: &mut PageCache,
    pages: &mut SharedPages<'_>,
    query: &Query<D>,
) -> Result<Reply, Memory>
    requires range { IsInRange D query.now }
    requires agrees { Agrees (folder_files pages.old.files.now) cache.old }
    requires held { ∥ ((docs : List Document) × HoldsDocs D (folder_files pages.old.files.now) segments.now docs) ∥₁ }
    ensures reply { (docs : List Document) → HoldsDocs D (folder_files pages.old.files.now) segments.now docs
        → IfOk result (λ r. r ≡ reply_of D docs query.now) }
    ensures files { folder_files pages.new.files.now ≡ folder_files pages.old.files.now }
    ensures agrees { Agrees (folder_files pages.old.files.now) cache.new }
{
    match query {
        Query::InBox { lo, hi } => {
            let mut shape = BoxShape::new(*lo, *hi);
            find(alloc, segments, cache, pages, &mut shape)
        }
        Query::Polygon(rings) => {
            let mut shape = PolygonShape::new(alloc, rings)?;
            find(alloc, segments, cache, pages, &mut shape)
        }
        Query::Nearest { k, at } => find_near(alloc, segments, cache, pages, *k, at),
    }
}

/// The documents that a shape has.
fn find<const D: usize, S: Shape<D>>(
    alloc: Global,
    segments: &Segments<D>,
    cache: &mut PageCache,
    pages: &mut SharedPages<'_>,
    shape: &mut S,
) -> Result<Reply, Memory>
    requires agrees { Agrees (folder_files pages.old.files.now) cache.old }
    requires held { ∥ ((docs : List Document) × HoldsDocs D (folder_files pages.old.files.now) segments.now docs) ∥₁ }
    ensures reply { (docs : List Document) → HoldsDocs D (folder_files pages.old.files.now) segments.now docs
        → IfOk result (λ r. r ≡ Reply.Hits (hits (S.has shape.old) docs)) }
    ensures files { folder_files pages.new.files.now ≡ folder_files pages.old.files.now }
    ensures agrees { Agrees (folder_files pages.old.files.now) cache.new }
{
    docs_hits();
    // there are at most 8 dimensions, so that an entry is small
    let _parts = segments.len();
    let found = visit(alloc, segments, &[], cache, pages, shape);
    let found = of_whole(found)?;
    Ok(Reply::Hits(Docs::new(found.docs)))
}

/// The documents that are nearest to a point.
fn find_near<const D: usize>(
    alloc: Global,
    segments: &Segments<D>,
    cache: &mut PageCache,
    pages: &mut SharedPages<'_>,
    k: u16,
    at: &Point<D>,
) -> Result<Reply, Memory>
    requires some { 1 ≤ k }
    requires few { k ≤ 10000 }
    requires agrees { Agrees (folder_files pages.old.files.now) cache.old }
    requires held { ∥ ((docs : List Document) × HoldsDocs D (folder_files pages.old.files.now) segments.now docs) ∥₁ }
    ensures reply { (docs : List Document) → HoldsDocs D (folder_files pages.old.files.now) segments.now docs
        → IfOk result (λ r. r ≡ Reply.Near (map near_of (nearest k at.now.c docs))) }
    ensures files { folder_files pages.new.files.now ≡ folder_files pages.old.files.now }
    ensures agrees { Agrees (folder_files pages.old.files.now) cache.new }
{
    docs_nearest();
    let found = nearest(alloc, segments, &[], cache, pages, at, k, false);
    let found = of_whole(found)?;
    Ok(Reply::Near(Nears::new(found.docs)))
}

/// What was found in pages that are whole and can't fail, so that memory alone may be wanting.
fn of_whole<T>(found: Result<T, PageFault>) -> Result<T, Memory>
    requires no_fault { IsErrOf found page.Failed → ⊥ }
    requires whole { NotDamaged found }
    ensures { IfOk result (λ x. found ≡ Ok x) }
{
    match found {
        Ok(found) => Ok(found),
        Err(PageFault::Memory) => Err(AllocError),
        Err(_) => unreachable!(),
    }
}
