//! Laws of commits and their bodies. Each function has an empty body: its contract is the law.

ghost use Rattle.std.specs.Prelude.{◌≡◌, ◌≤◌, ℕ, List, Option, Some, length};
ghost use Rattle.commit_list.specs.Commits.{CommitData, IsCommit, FitsFields};
ghost use Rattle.commit_list.specs.Layout.{SpellsCommit, commit_body};
ghost use Rattle.outer_io.specs.Files.{bytes_of};
ghost use Rattle.commit_list.specs.CommitFiles.{IsCommitFile, IsWrittenCommit};

/// Bytes are the body of one commit at most.
pub fn commits_are_unique()
    ensures commit { (c d : CommitData) (bytes : List ℕ) → SpellsCommit bytes c → SpellsCommit bytes d → c ≡ d }
    // a commit has a body in the layout that is written, and by its definition one only
    ensures body { (c : CommitData) → IsCommit c → FitsFields c → SpellsCommit (commit_body c) c }
{}

/// What a file of a commit says.
pub fn files_say_one_commit()
    ensures one { (bytes : List ℕ) (c d : CommitData) → IsCommitFile bytes c → IsCommitFile bytes d → c ≡ d }
    ensures written { (bytes : List ℕ) (c : CommitData) → IsWrittenCommit bytes c → IsCommitFile bytes c }
    // a file that isn't there, or is empty, says none
    ensures there { (file : Option (List ℕ)) (c : CommitData) → IsCommitFile (bytes_of file) c
        → (file ≡ Some (bytes_of file))
        × (4096 ≤ length (bytes_of file)) }
    ensures rules { (bytes : List ℕ) (c : CommitData) → IsCommitFile bytes c → IsCommit c }
{}
