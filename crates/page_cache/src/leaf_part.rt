//! The part of a page in which a leaf stands.

ghost use Rattle.std.specs.Prelude.{◌≡◌, ◌≤◌, IsTrue};

/// The part of a page's payload in which a leaf stands.
#[derive(Clone, Copy, Drop)]
pub(crate) struct LeafPart {
    pub(crate) offset: u16,
    pub(crate) length: u16,
}

impl LeafPart {
    /// Whether it is the same part.
    pub(crate) fn is(&self, other: &LeafPart) -> bool
        ensures { IsTrue result → self.now ≡ other.now }
    {
        if self.offset != other.offset {
            return false;
        }
        self.length == other.length
    }

    /// In which of eight places it is put: leaves of one page begin far apart.
    pub(crate) fn slot(&self) -> usize
        ensures { result ≤ 7 }
    {
        usize::from(self.offset / 508 % 8)
    }
}
