//! What the words of the command line say of the folder: which it is, and who else may work in it.

use outer_io::Hold;
use std::alloc::{AllocFailed, Global};
use std::env::Args;

/// The words that are the command's, and how its folder is held.
#[derive(Drop)]
pub(crate) struct Asked {
    /// The folder, the command and its options.
    pub(crate) words: Vec<String>,
    pub(crate) hold: Hold,
    /// How many seconds to wait for another run's end.
    pub(crate) wait: u32,
}

impl Asked {
    /// The folder's path; where there are no words it is the directory that the program runs in.
    pub(crate) fn dir(&self) -> &str {
        match self.words.as_slice() {
            [dir, ..] => dir.as_str(),
            [] => ".",
        }
    }

    /// The command, and no text where there is none.
    pub(crate) fn command(&self) -> &str {
        match self.words.as_slice() {
            [_, command, ..] => command.as_str(),
            _ => "",
        }
    }

    /// Whether the command answers its input line by line.
    pub(crate) fn answers_lines(&self) -> bool {
        matches!(
            self.command(),
            "run" | "session" | "ranges" | "explain" | "count"
        )
    }

    /// Whether the words are those of the command `clean`, which is done here and not by `bkd_top::run`: the names of
    /// the folder's files are nothing that a `Folder` tells.
    pub(crate) fn is_clean(&self) -> bool {
        match self.words.as_slice() {
            [_, command] => command.as_str() == "clean",
            _ => false,
        }
    }
}

/// Why words ask for nothing.
#[derive(Clone, Copy)]
pub(crate) enum AskedFault {
    /// A word is not UTF-8.
    NotText,
    /// `--wait` is wrong or stands twice.
    Wait,
    Memory,
}

impl<T: Drop> From<AllocFailed<T>> for AskedFault {
    fn from(_failed: AllocFailed<T>) -> AskedFault {
        AskedFault::Memory
    }
}

/// The longest that a run waits, in seconds.
pub(crate) const LONGEST_WAIT: u32 = 3_600;

/// Reads the words behind the program's own name, which is the first. `--wait SECONDS` and `--no-lock` may stand
/// anywhere behind the command.
pub(crate) fn read_asked(alloc: Global, words: Args<Global>) -> Result<Asked, AskedFault> {
    let mut left = Vec::new(alloc);
    let (mut wait, mut unlocked) = (None, false);
    // (what stands behind --columns names columns)
    let (mut is_value, mut is_wait) = (false, false);
    for word in words.skip(1) {
        let text = word.as_str();
        let is_option = left.len() >= 2 && !is_value;
        if is_wait {
            wait = Some(seconds(text)?);
            is_wait = false;
        } else if is_option && text == "--no-lock" && !unlocked {
            unlocked = true;
        } else if is_option && text == "--wait" && wait.is_none() {
            is_wait = true;
        } else if is_option && text.starts_with("--wait=") && wait.is_none() {
            wait = Some(seconds(&text["--wait=".len()..])?);
        } else {
            is_value = !is_value && text == "--columns";
            left.push(word)?;
        }
    }
    if is_wait {
        return Err(AskedFault::Wait);
    }
    Ok(Asked {
        hold: if unlocked {
            Hold::Unlocked
        } else {
            hold_of(&left)
        },
        words: left,
        wait: wait.unwrap_or(0),
    })
}

/// The seconds that a run is to wait.
fn seconds(text: &str) -> Result<u32, AskedFault> {
    match text.parse::<u32>() {
        Ok(n) if n <= LONGEST_WAIT => Ok(n),
        _ => Err(AskedFault::Wait),
    }
}

/// How a command holds its folder: alone where it is sure to write.
fn hold_of(words: &[String]) -> Hold {
    match words {
        [_, command, options @ ..] => match command.as_str() {
            "load" | "generate" | "clean" => Hold::Alone,
            "batch" if options.iter().any(|word| word.as_str() == "--merge") => Hold::Alone,
            _ => Hold::Shared,
        },
        _ => Hold::Shared,
    }
}
