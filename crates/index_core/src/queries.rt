//! Commands that look for documents.

ghost use Rattle.std.specs.Prelude.{◌≡◌, ◌≤◌, ◌↔◌, true, false, IsTrue};
ghost use Rattle.documents.specs.Documents.{hits};
ghost use Rattle.script_lang.specs.Requests as asks;
ghost use Rattle.script_lang.specs.Replies.{hits_text};
ghost use Rattle.script_lang.specs.Seen.{view_name};
ghost use Rattle.index_model.specs.State.{viewed_docs};
ghost use Rattle.index_model.specs.Step.{query_outcome, step_on};
ghost use Rattle.segment_set.specs.Sets.{HasView, viewed_parts};
ghost use Rattle.index_core.specs.Costs.{ReadsAtMost, ReadsTouched};
ghost use Rattle.index_core.specs.Damages.{ShowsDamage, ShowsLeaf};
ghost use Rattle.index_core.specs.Sessions.{IsStill};
ghost use Rattle.index_core.specs.Effects.{KeepsStill, OnRefused};
ghost use Rattle.index_core.specs.Steps.{Applies};

use crate::session::Session;
use cell_relate::Shape;
use index_model::Applied;
use outer_io::Folder;
use page_cache::PageFault;
use point_codec::{Point, View};
use polygon_query::PolygonShape;
use ring_parity::Rings;
use script_lang::{Refusal, put_hits, put_near};
use std::alloc::Global;

impl<const D: usize> Session<D> {
    /// Whether there is such a view.
    fn has_view(&self, view: &View) -> bool
        ensures { (result ≡ true) ↔ HasView (view_name view.now) self.now.set }
    {
        match view {
            View::Now => true,
            View::Named(name) => self.set.has_snapshot(name),
        }
    }

    /// The documents of the view that the shape has.
    pub(crate) fn find<S: Shape<D>, F: Folder>(
        &mut self,
        alloc: Global,
        folder: &mut F,
        view: &View,
        shape: &mut S,
        out: &mut Vec<u8>,
    ) -> Result<Applied, PageFault>
        ensures applies { Applies D (IsTrue F.told)
            (λ i. query_outcome i (viewed_docs (view_name view.now) i)
            (λ docs. hits_text (hits (S.has shape.old) docs)))
            false
            (record {
              files = F.files folder.old;
              session = self.old;
              text = out.old.items;
              faults = F.faults folder.old;
            })
            (record {
              files = F.files folder.new;
              session = self.new;
              text = out.new.items;
              faults = F.faults folder.new;
            }) result }
        ensures reads { ReadsTouched D (S.has shape.old) (S.crosses shape.old)
            (viewed_parts (view_name view.now) self.old.set)
            (F.reads folder.old) (F.reads folder.new) }
        ensures damage { ShowsLeaf D (IsTrue F.told) (F.files folder.old) self.old.set
            (viewed_parts (view_name view.now) self.old.set) result }
        ensures still { IsStill (IsTrue F.told) (F.files folder.old) (F.files folder.new) self.old self.new }
        ensures unread { OnRefused result (F.reads folder.new ≡ F.reads folder.old) }
    {
        if !self.has_view(view) {
            return Ok(Applied::Refused(Refusal::UnknownSnapshot));
        }
        let hits = self.set.visit(alloc, folder, view, shape)?;
        put_hits(out, hits.docs.as_slice())?;
        Ok(Applied::Done)
    }

    /// The documents of the view in the polygon.
    pub(crate) fn find_in<F: Folder>(
        &mut self,
        alloc: Global,
        folder: &mut F,
        view: &View,
        rings: &Rings,
        out: &mut Vec<u8>,
    ) -> Result<Applied, PageFault>
        ensures applies { Applies D (IsTrue F.told)
            (λ i. step_on i (asks.InPolygon (view_name view.now) rings.now)) false
            (record {
              files = F.files folder.old;
              session = self.old;
              text = out.old.items;
              faults = F.faults folder.old;
            })
            (record {
              files = F.files folder.new;
              session = self.new;
              text = out.new.items;
              faults = F.faults folder.new;
            }) result }
        ensures reads { ReadsAtMost D (IsTrue F.told) (asks.InPolygon (view_name view.now) rings.now)
            (F.files folder.old) self.old
            (F.reads folder.old) (F.reads folder.new) }
        ensures damage { ShowsDamage D (IsTrue F.told) (asks.InPolygon (view_name view.now) rings.now)
            (F.files folder.old)
            (F.files folder.new) self.old self.new result }
        ensures still { KeepsStill (IsTrue F.told) (asks.InPolygon (view_name view.now) rings.now) (F.files folder.old)
            (F.files folder.new) self.old self.new result }
        ensures unread { OnRefused result (F.reads folder.new ≡ F.reads folder.old) }
    {
        let mut shape = PolygonShape::new(alloc, rings)?;
        self.find(alloc, folder, view, &mut shape, out)
    }

    /// The `k` documents of the view that are nearest to a point.
    pub(crate) fn nearest<F: Folder>(
        &mut self,
        alloc: Global,
        folder: &mut F,
        view: &View,
        k: u16,
        at: &Point<D>,
        out: &mut Vec<u8>,
    ) -> Result<Applied, PageFault>
        requires some { 1 ≤ k }
        requires few { k ≤ 10000 }
        ensures applies { Applies D (IsTrue F.told)
            (λ i. step_on i (asks.Nearest (view_name view.now) k at.now.c)) false
            (record {
              files = F.files folder.old;
              session = self.old;
              text = out.old.items;
              faults = F.faults folder.old;
            })
            (record {
              files = F.files folder.new;
              session = self.new;
              text = out.new.items;
              faults = F.faults folder.new;
            }) result }
        ensures reads { ReadsAtMost D (IsTrue F.told) (asks.Nearest (view_name view.now) k at.now.c)
            (F.files folder.old) self.old
            (F.reads folder.old) (F.reads folder.new) }
        ensures damage { ShowsDamage D (IsTrue F.told) (asks.Nearest (view_name view.now) k at.now.c)
            (F.files folder.old)
            (F.files folder.new) self.old self.new result }
        ensures still { KeepsStill (IsTrue F.told) (asks.Nearest (view_name view.now) k at.now.c) (F.files folder.old)
            (F.files folder.new) self.old self.new result }
        ensures unread { OnRefused result (F.reads folder.new ≡ F.reads folder.old) }
    {
        if !self.has_view(view) {
            return Ok(Applied::Refused(Refusal::UnknownSnapshot));
        }
        let found = self.set.nearest(alloc, folder, view, at, k)?;
        put_near(out, found.docs.as_slice())?;
        Ok(Applied::Done)
    }
}
