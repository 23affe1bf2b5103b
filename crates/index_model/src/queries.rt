//! What queries find in the documents of the model.

ghost use Rattle.std.specs.Prelude.{◌≡◌, ◌≤◌, ◌<◌, Some, None, MatchOption};
ghost use Rattle.documents.specs.Documents.{hits};
ghost use Rattle.script_lang.specs.Replies.{hits_text};
ghost use Rattle.script_lang.specs.Requests as asks;
ghost use Rattle.script_lang.specs.Seen.{view_name};
ghost use Rattle.index_model.specs.State.{viewed_docs};
ghost use Rattle.index_model.specs.Step.{Done, step_on, query_outcome};

use crate::held::snapshot_of;
use crate::session::{Applied, ListSession};
use cell_relate::Shape;
use documents::{HeldDocument, Memory, scan_hits, scan_nearest};
use point_codec::{Point, View};
use polygon_query::PolygonShape;
use ring_parity::Rings;
use script_lang::{Refusal, put_hits, put_near};
use std::alloc::Global;

#[tactic(auto, unfolding(crate::specs::Step::step_on))]
impl<const D: usize> ListSession<D> {
    ghost use Rattle.index_model.specs.Sessions.{Does};

    /// The documents that a query looks at, or None where no snapshot has the name.
    pub(crate) fn viewed(&self, view: &View) -> Option<&[HeldDocument<D>]>
        requires { D ≤ 8 }
        ensures { MatchOption result (viewed_docs (view_name view.now) self.now ≡ None)
            (λ docs. viewed_docs (view_name view.now) self.now ≡ Some docs.now) }
    {
        match view {
            View::Now => Some(self.docs.as_slice()),
            View::Named(name) => match snapshot_of(self.snapshots.as_slice(), name) {
                Some(snapshot) => Some(snapshot.docs()),
                None => None,
            },
        }
    }

    pub(crate) fn find<S: Shape<D>>(
        &self,
        alloc: Global,
        view: &View,
        shape: &mut S,
        out: &mut Vec<u8>,
    ) -> Result<Applied, Memory>
        requires { D ≤ 8 }
        ensures { Does
            (query_outcome self.now (viewed_docs (view_name view.now) self.now)
            (λ docs. hits_text (hits (S.has shape.old) docs)))
            self.now self.now out.old.items out.new.items result }
    {
        let Some(docs) = self.viewed(view) else {
            return Ok(Applied::Refused(Refusal::UnknownSnapshot));
        };
        put_hits(out, scan_hits(alloc, docs, shape)?.as_slice())?;
        Ok(Applied::Done)
    }

    pub(crate) fn find_in(
        &self,
        alloc: Global,
        view: &View,
        rings: &Rings,
        out: &mut Vec<u8>,
    ) -> Result<Applied, Memory>
        requires { D ≤ 8 }
        ensures { Does
            (step_on self.now (asks.InPolygon (view_name view.now) rings.now)) self.now self.now out.old.items
            out.new.items result }
    {
        let _ = &self.leaf_size;
        let mut shape = PolygonShape::new(alloc, rings)?;
        self.find(alloc, view, &mut shape, out)
    }

    pub(crate) fn nearest(
        &self,
        alloc: Global,
        view: &View,
        k: u16,
        at: &Point<D>,
        out: &mut Vec<u8>,
    ) -> Result<Applied, Memory>
        requires { D ≤ 8 }
        ensures { Does
            (step_on self.now (asks.Nearest (view_name view.now) k at.now.c)) self.now self.now out.old.items
            out.new.items
            result }
    {
        let Some(docs) = self.viewed(view) else {
            return Ok(Applied::Refused(Refusal::UnknownSnapshot));
        };
        put_near(out, scan_nearest(alloc, docs, at, k)?.as_slice())?;
        Ok(Applied::Done)
    }
}
