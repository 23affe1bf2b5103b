//! Drawn scripts over ranges of 1 to 4 dimensions: each answer is that of a scan of the live ranges.

use crate::asserts::same;
use bkd_top::code;
use outer_io::MemFolder;
use program_tests::draws::Draws;
use program_tests::fixtures::called;
use std::alloc::Global;
use std::fmt::Write;
use std::test::Fail;

/// The ends of a range in each of four dimensions, of which the first are used.
type Ends = [(u8, u8); 4];

/// A live document: its number, and its range.
type Live = (u32, Ends);

const QUESTIONS: [&str; 3] = ["intersects", "within", "contains"];

/// Lines that change no document.
const OTHERS: [&str; 4] = ["flush", "merge", "commit", "reopen"];

/// A script, what a scan of the live ranges answers to it, and what it is made from.
#[derive(Drop)]
struct Story {
    dims: usize,
    draws: Draws,
    next: u32,
    live: Vec<Live>,
    script: String,
    answers: String,
}

impl Story {
    /// A range from 0 to 15 in each dimension.
    fn ends(&mut self) -> Ends {
        let mut ends = [(0, 0); 4];
        for pair in &mut ends {
            let (a, b) = (self.draws.byte() % 16, self.draws.byte() % 16);
            *pair = (a.min(b), a.max(b));
        }
        ends
    }

    /// Puts a line: a word, and the ends of a range.
    fn put(&mut self, word: &str, ends: &Ends) -> Result<(), Fail> {
        self.script.push_str(word)?;
        for (lower, _) in ends.iter().take(self.dims) {
            write!(self.script, " {lower}")?;
        }
        for (_, upper) in ends.iter().take(self.dims) {
            write!(self.script, " {upper}")?;
        }
        self.script.push_str("\n")?;
        Ok(())
    }

    fn add(&mut self) -> Result<(), Fail> {
        let ends = self.ends();
        self.put("add", &ends)?;
        writeln!(self.answers, "doc {}", self.next)?;
        self.live.push((self.next, ends))?;
        self.next = self.next.wrapping_add(1);
        Ok(())
    }

    fn delete(&mut self) -> Result<(), Fail> {
        let doc = u32::from(self.draws.byte() % 64);
        let before = self.live.len();
        self.live.retain(|(number, _)| *number != doc);
        writeln!(self.script, "delete {doc}")?;
        let gone = u8::from(self.live.len() != before);
        writeln!(self.answers, "deleted {gone}")?;
        Ok(())
    }

    fn ask(&mut self, question: &str) -> Result<(), Fail> {
        let query = self.ends();
        self.put(question, &query)?;
        let mut found = String::new(self.script.allocator());
        let mut count = 0u32;
        for (number, ends) in &self.live {
            if is_answer(question, &ends[..], &query[..], self.dims) {
                count = count.wrapping_add(1);
                writeln!(found, "{number}")?;
            }
        }
        writeln!(self.answers, "hits {count}")?;
        self.answers.push_str(found.as_str())?;
        Ok(())
    }

    /// Puts a line that is drawn.
    fn put_line(&mut self) -> Result<(), Fail> {
        let way = self.draws.byte() % 16;
        match way {
            0..=5 => self.add(),
            6 => self.delete(),
            7..=12 => self.ask(QUESTIONS[usize::from(way % 3)]),
            _ => self.other(OTHERS[usize::from(way % 4)]),
        }
    }

    fn other(&mut self, line: &str) -> Result<(), Fail> {
        writeln!(self.script, "{line}")?;
        self.answers.push_str("ok\n")?;
        Ok(())
    }
}

/// Whether a stored range is an answer: in each dimension it must be.
fn is_answer(question: &str, stored: &[(u8, u8)], query: &[(u8, u8)], dims: usize) -> bool {
    stored.iter().zip(query.iter()).take(dims).all(|((lower, upper), (from, to))| match question {
        "intersects" => lower <= to && from <= upper,
        "within" => from <= lower && upper <= to,
        _ => lower <= from && to <= upper,
    })
}

fn drawn_story(alloc: Global, dims: usize, lines: usize) -> Result<Story, Fail> {
    let mut story = Story {
        dims,
        draws: Draws { seed: 20_260_711 },
        next: 0,
        live: Vec::new(alloc),
        script: String::new(alloc),
        answers: String::from_str(alloc, "ok\n")?,
    };
    writeln!(story.script, "create {dims} leaf 4")?;
    for _ in 0..lines {
        story.put_line()?;
    }
    Ok(story)
}

#[test]
fn drawn_ranges_agree_with_a_scan(rt: HostRuntime) -> Result<(), Fail> {
    for dims in 1..5 {
        let story = drawn_story(rt.alloc(), dims, 400)?;
        let mut folder = MemFolder::new(rt.alloc(), Vec::new(rt.alloc()));
        let (status, text) = called(
            &rt,
            rt.alloc(),
            &[".", "ranges"],
            story.script.as_str(),
            &mut folder,
        )?;
        same(&rt, text.as_str(), story.answers.as_str());
        same(&rt, code(&status), 0);
    }
    Ok(())
}
