//! What somebody typed, as a note shows it.

use std::fmt;

/// A text without what a terminal would obey, cut where it is long.
#[derive(Clone, Copy)]
pub(crate) struct Shown<'a>(pub(crate) &'a str);

/// How many characters of a text are shown.
const MOST_SHOWN: usize = 60;

impl fmt::Display for Shown<'_> {
    fn fmt<W: fmt::Write>(&self, f: &mut fmt::Formatter<W>) -> fmt::Result {
        for c in self.0.chars().take(MOST_SHOWN) {
            f.write_char(if c.is_control() { '?' } else { c })?;
        }
        if self.0.chars().nth(MOST_SHOWN).is_some() {
            f.write_str(" ..")?;
        }
        Ok(())
    }
}
