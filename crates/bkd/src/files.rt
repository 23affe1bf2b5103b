//! What a folder has beside what the program opens, and how large the input is.

use std::alloc::{AllocError, Global};
use std::fs;

/// The files of an index that a directory has.
#[derive(Clone, Copy)]
pub(crate) struct Found {
    pub(crate) has_commit: bool,
    /// How many there are beside the Commit.
    pub(crate) others: u64,
    /// The bytes of all of them.
    pub(crate) bytes: u64,
}

impl Found {
    /// What is said where there is no Commit, and others are there.
    pub(crate) fn note(&self, alloc: Global) -> Result<String, AllocError> {
        let (others, files) = match self.others {
            1 => (1, "file of an index is"),
            others => (others, "files of an index are"),
        };
        format!(in alloc;
            "bkd: {others} {files} here without commit.bkd: put that back from a copy before anything is written\n"
        )
    }
}

/// Looks into a directory. What can't be seen is not there.
pub(crate) fn look_into(rt: &HostRuntime, dir: &str) -> Found {
    let mut found = Found {
        has_commit: false,
        others: 0,
        bytes: 0,
    };
    let Ok(entries) = fs::read_dir(rt, dir) else {
        return found;
    };
    for entry in entries {
        let Ok(entry) = entry else {
            break;
        };
        let name = entry.file_name();
        if name == "commit.bkd" {
            found.has_commit = true;
        } else if is_of_index(name) {
            found.others = found.others.saturating_add(1);
        } else {
            continue;
        }
        if let Ok(there) = fs::metadata(rt, entry.path()) {
            found.bytes = found.bytes.saturating_add(there.len());
        }
    }
    found
}

/// Whether a file beside the Commit has a name that an index gives: `commit.new`, `seg-` and 16 digits, or `live-`, 16
/// digits, `-` and 16 digits, and then `.bkd`.
fn is_of_index(name: &str) -> bool {
    if name == "commit.new" {
        return true;
    }
    let Some(stem) = name.strip_suffix(".bkd") else {
        return false;
    };
    if let Some(id) = stem.strip_prefix("seg-") {
        return is_number(id);
    }
    match stem.strip_prefix("live-") {
        Some(rest) => match rest.split_once("-") {
            Some((segment, generation)) => is_number(segment) && is_number(generation),
            None => false,
        },
        None => false,
    }
}

fn is_number(digits: &str) -> bool {
    digits.len() == 16
        && digits
            .bytes()
            .all(|b| b.is_ascii_digit() || (b'a'..=b'f').contains(&b))
}

/// How many bytes the standard input has; 0 where it is no file.
pub(crate) fn input_size(rt: &HostRuntime) -> u64 {
    match fs::metadata(rt, "/proc/self/fd/0") {
        Ok(there) if there.is_file() => there.len(),
        _ => 0,
    }
}
