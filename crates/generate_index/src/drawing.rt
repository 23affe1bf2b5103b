//! Drawn documents as entries.

ghost use Rattle.std.specs.Prelude.{◌≡◌, ◌*◌, IfOk, OnOk};
ghost use Rattle.segment_set.specs.AtOnce.{AreNumbered, points_in};
ghost use Rattle.drawn_points.specs.Draws.{draw, points};

use drawn_points::Draws;
use point_codec::Entry;
use std::alloc::{AllocError, Global};

/// The entries of so many drawn documents, with the numbers from 0 on.
pub(crate) fn drawn_entries(
    alloc: Global,
    docs: u32,
    draws: &mut Draws,
) -> Result<Vec<Entry<2>>, AllocError>
    ensures points { IfOk result (λ entries. points_in entries.items ≡ points draws.old 0 docs) }
    ensures numbers { IfOk result (λ entries. AreNumbered 0 entries.items) }
    ensures drawn { OnOk result (draws.new ≡ draw draws.old (2 * docs)) }
{
    let mut entries = Vec::with_capacity(alloc, docs as usize)?;
    let mut doc = 0;
    'adds: while doc < docs {
        let point = draws.point();
        entries.push_reserved(Entry { doc, point });
        doc += 1;
    }
    Ok(entries)
}
