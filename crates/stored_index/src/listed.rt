//! Which files a commit lists.

ghost use Rattle.std.specs.Prelude.{◌≡◌, ◌↔◌, true};
ghost use Rattle.stored_index.specs.Kept.{ListsFile};

use commit_list::Commit;
use outer_io::FileName;

/// Whether the commit lists the file.
pub fn lists_file(c: &Commit, name: &FileName) -> bool
    ensures { (result ≡ true) ↔ ListsFile c.now name.now }
{
    match *name {
        FileName::Segment(id) => c.listed().iter().any(|s| s.segment == id),
        FileName::Live {
            segment,
            generation,
        } => c
            .listed()
            .iter()
            .any(|s| s.segment == segment && s.generation == generation),
        FileName::Commit | FileName::CommitNew => false,
    }
}
