//! The outside as one value.

use outer_io::{Folder, Sink, Source};

/// What a run works on: where its input comes from, the folder, and where its answers go.
#[derive(Drop)]
pub struct World<'s, 'f, 'k, S, F, K> {
    pub input: &'s mut S,
    pub folder: &'f mut F,
    pub out: &'k mut K,
}

/// What contracts see of the outside.
pub trait Outside {
    ghost use Rattle.world.specs.Steps.{Step};

    /// What stands between a moment of a run and a later one.
    ghost step: { Self → Self → Step };
}

impl<S: Source, F: Folder, K: Sink> Outside for (S, F, K) {
    ghost step = { λ w v. record {
      tells = record { source = S.told; folder = F.told; sink = K.told };
      old = record {
        left = S.left w.0;
        files = F.files w.1;
        reads = F.reads w.1;
        written = K.written w.2;
        source_faults = S.faults w.0;
        folder_faults = F.faults w.1;
        sink_faults = K.faults w.2;
      };
      new = record {
        left = S.left v.0;
        files = F.files v.1;
        reads = F.reads v.1;
        written = K.written v.2;
        source_faults = S.faults v.0;
        folder_faults = F.faults v.1;
        sink_faults = K.faults v.2;
      };
    } };
}

impl<'s, 'f, 'k, S: Source, F: Folder, K: Sink> Outside for World<'s, 'f, 'k, S, F, K> {
    ghost step = { λ w v. ⟦<(S, F, K) as Outside>⟧.step
        (w.input.now, w.folder.now, w.out.now) (v.input.now, v.folder.now, v.out.now) };
}
