//! The resident copy of an index.

ghost use Rattle.std.specs.Prelude.{◌≡◌, List};
ghost use Rattle.outer_io.specs.MemFolder.{folder_files};
ghost use Rattle.documents.specs.Documents.{Document};
ghost use Rattle.batch_run.specs.Held.{HoldsDocs};

use crate::pages::SharedPages;
use outer_io::MemFolder;
use segment_view::Segments;

/// An index in memory: its files, and its segments opened from them. All its leaves were verified. It never changes,
/// and any number of threads read it.
#[derive(Drop)]
pub struct Resident<const D: usize> {
    pub(crate) segments: Segments<D>,
    pub(crate) files: MemFolder,
    ghost held: { ∥ ((docs : List Document) × HoldsDocs D (folder_files files) segments docs) ∥₁ },
}

impl<const D: usize> Resident<D> {
    /// The segments with their live bits, as they were opened from the files.
    pub(crate) fn segments(&self) -> &Segments<D>
        ensures { result.now ≡ self.now.segments }
    {
        &self.segments
    }

    /// A reader of the files.
    pub(crate) fn pages(&self) -> SharedPages<'_>
        ensures { folder_files result.files.now ≡ folder_files self.now.files }
    {
        SharedPages::new(&self.files)
    }
}
