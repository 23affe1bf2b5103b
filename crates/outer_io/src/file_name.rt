//! The names of the files of an index.
ghost use Rattle.std.specs.Prelude.{◌≡◌, Some};

use std::fmt;

/// A file of an index. Segments count up from 0 and a name is never used for a second content while something needs
/// the first.
#[derive(Clone, Copy, PartialEq, Eq, Debug)]
pub enum FileName {
    /// The list of the segments that the index consists of.
    Commit,
    /// The next such list, while it is written.
    CommitNew,
    /// The tree of a segment, by its id.
    Segment(u64),
    /// The live bits of a segment; each change writes the next generation.
    Live { segment: u64, generation: u64 },
}

impl FileName {
    ghost use Rattle.outer_io.specs.Names.{same_name};

    /// Whether the two names are the same.
    #[tactic(auto, unfolding(crate::specs::Names::same_name))]
    pub fn is(&self, other: &FileName) -> bool
        ensures { result ≡ same_name self.now other.now }
    {
        self == other
    }
}

/// The name in a directory: `commit.bkd`, `commit.new`, `seg-` and the id, or `live-`, the segment,
/// `-` and the generation, each number in 16 lower-case hexadecimal digits, then `.bkd`.
impl fmt::Display for FileName {
    ghost use Rattle.outer_io.specs.Names.{name_text};

    ghost output = { λ n. Some (name_text n) };

    fn fmt<W: fmt::Write>(&self, f: &mut fmt::Formatter<W>) -> fmt::Result {
        match *self {
            FileName::Commit => write!(f, "commit.bkd"),
            FileName::CommitNew => write!(f, "commit.new"),
            FileName::Segment(id) => write!(f, "seg-{id:016x}.bkd"),
            FileName::Live {
                segment,
                generation,
            } => write!(f, "live-{segment:016x}-{generation:016x}.bkd"),
        }
    }
}
