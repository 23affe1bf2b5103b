//! A line cut into words, one after the other.

ghost use Rattle.std.specs.Prelude.{◌≡◌, ◌==◌, ◌+◌, ◌<◌, ◌≤◌, ◌^◌, ◌∷◌, [], length, slice_index, MatchOption};
ghost use Rattle.std.specs.List.{prefix_len, position_or_len};
ghost use Rattle.script_lang.specs.Lines.{words_of, from_word, after_word, is_blank};

/// The first word of a text, and what stands behind it.
fn first_word(text: &str) -> Option<(&str, &str)>
    ensures { MatchOption result (words_of text.now ≡ [])
        (λ w. (words_of text.now ≡ w.0.now ∷ words_of w.1.now) × (w.1.now ≡ after_word text.now)) }
{
    let (_, text) = text.split_at(blanks(text));
    if text.is_empty() {
        return None;
    }
    Some(text.split_at(word_len(text)))
}

/// Whether a text is empty but for blanks.
fn has_no_word(text: &str) -> bool
    ensures { result ≡ (length (words_of text.now) == 0) }
{
    let (_, text) = text.split_at(blanks(text));
    text.is_empty()
}

/// Whether what stands behind the blanks at the front of a text begins with `@`.
fn begins_with_at(text: &str) -> bool
    ensures { result ≡ (slice_index (from_word text.now) 0 == 64) }
{
    let (_, text) = text.split_at(blanks(text));
    is_at(text)
}

fn is_at(text: &str) -> bool
    ensures { result ≡ (slice_index text.now 0 == 64) }
{
    matches!(text.as_bytes(), [b'@', ..])
}

/// How many blanks stand at the front of a text.
fn blanks(text: &str) -> usize
    ensures value { result ≡ prefix_len is_blank text.now }
    ensures bound { result ≤ length text.now }
{
    text.bytes()
        .position(|b| !is_blank(b))
        .unwrap_or(text.len())
}

/// How many bytes stand before the first blank of a text.
fn word_len(text: &str) -> usize
    ensures value { result ≡ position_or_len is_blank text.now }
    ensures bound { result ≤ length text.now }
{
    text.bytes().position(is_blank).unwrap_or(text.len())
}

fn is_blank(b: u8) -> bool
    ensures { result ≡ is_blank b }
{
    b == b' ' || b == b'\t'
}

/// The words of a line that are not read yet.
#[derive(Clone, Copy)]
pub struct Words<'a> {
    /// The rest of the line.
    pub text: &'a str,
    /// The place of the first of the words in the line, counted from 1.
    pub place: u32,
    pub ghost fits: { place + length (words_of text.now) < 2 ^ 32 },
}

impl<'a> Words<'a> {
    ghost use Rattle.script_lang.specs.Parts.{words_left, names_view, Takes, IsRestOf};

    /// Takes the next word. None exactly where no word is left.
    pub fn next(&mut self) -> Option<&'a str>
        ensures word { MatchOption result (words_left self.old ≡ []) (λ word. Takes word.now self.old self.new) }
        ensures rest { IsRestOf self.new self.old }
    {
        let (word, text) = first_word(self.text)?;
        *self = Words {
            text,
            place: self.place + 1,
        };
        Some(word)
    }

    /// Whether no word is left. No word is cut.
    pub fn is_empty(&self) -> bool
        ensures { result ≡ (length (words_left self.now) == 0) }
    {
        has_no_word(self.text)
    }

    /// Whether the next word begins with `@`. No word is cut.
    pub fn names_view(&self) -> bool
        ensures { result ≡ names_view (words_left self.now) }
    {
        begins_with_at(self.text)
    }

    /// How many words there are.
    pub fn count(&self) -> usize
        ensures { result ≡ length (words_left self.now) }
    {
        let mut count = 0;
        let mut rest = *self;
        while rest.next().is_some() {
            count += 1;
        }
        count
    }

    /// How many words there are from a place of the line on, where those from there to the first that is left are read.
    pub fn count_from(&self, place: u32) -> usize
        requires { place ≤ self.now.place }
        ensures { place + result ≡ self.now.place + length (words_left self.now) }
    {
        (self.place - place) as usize + self.count()
    }
}
