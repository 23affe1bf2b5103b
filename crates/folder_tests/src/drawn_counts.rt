//! Drawn folders of 1 to 4 dimensions: each count and each grid over them is that of a scan of the live points.

use crate::asserts::same;
use bkd_top::code;
use outer_io::MemFolder;
use program_tests::draws::Draws;
use program_tests::fixtures::called;
use std::alloc::Global;
use std::fmt::Write;
use std::test::Fail;

/// A point, of which the first coordinates are used.
type Coordinates = [u8; 4];

/// A live point: the number of its document, and where it is.
type Live = (u32, Coordinates);

/// Lines that change no document.
const OTHERS: [&str; 4] = ["flush", "merge", "commit", "reopen"];

/// The least and the greatest corner of a box, both in it.
#[derive(Clone, Copy)]
struct Corners {
    lo: Coordinates,
    hi: Coordinates,
}

/// A script, lines about the folder that it leaves, and what a scan of the live points answers to them.
#[derive(Drop)]
struct Story {
    alloc: Global,
    dims: usize,
    draws: Draws,
    next: u32,
    live: Vec<Live>,
    script: String,
    lines: String,
    answers: String,
}

impl Story {
    /// A point with coordinates from 0 to 15.
    fn place(&mut self) -> Coordinates {
        let mut place = [0; 4];
        for coordinate in &mut place {
            *coordinate = self.draws.byte() % 16;
        }
        place
    }

    /// A box, one in eight of which has its ends exchanged and so may be empty.
    fn corners(&mut self) -> Corners {
        let (a, b) = (self.place(), self.place());
        if self.draws.byte() < 32 {
            return Corners { lo: a, hi: b };
        }
        let mut corners = Corners { lo: a, hi: a };
        for i in 0..4 {
            corners.lo[i] = a[i].min(b[i]);
            corners.hi[i] = a[i].max(b[i]);
        }
        corners
    }

    /// Adds a document of one to three points; a point that it has already is not taken twice.
    fn add(&mut self) -> Result<(), Fail> {
        self.script.push_str("add")?;
        for _ in 0..1 + self.draws.byte() % 3 {
            let place = self.place();
            put_place(&mut self.script, &place[..], self.dims)?;
            let doc = self.next;
            if !self.has(doc, &place[..]) {
                self.live.push((doc, place))?;
            }
        }
        self.script.push_str("\n")?;
        self.next = self.next.wrapping_add(1);
        Ok(())
    }

    /// Whether the document has a point there.
    fn has(&self, doc: u32, place: &[u8]) -> bool {
        let dims = self.dims;
        self.live.iter().any(|(number, other)| {
            *number == doc
                && other
                    .iter()
                    .zip(place.iter())
                    .take(dims)
                    .all(|(a, b)| a == b)
        })
    }

    fn delete(&mut self) -> Result<(), Fail> {
        let doc = u32::from(self.draws.byte() % 64);
        self.live.retain(|(number, _)| *number != doc);
        writeln!(self.script, "delete {doc}")?;
        Ok(())
    }

    /// Puts a line of the script that is drawn.
    fn put_line(&mut self) -> Result<(), Fail> {
        let way = self.draws.byte() % 16;
        match way {
            0..=9 => self.add(),
            10..=12 => self.delete(),
            _ => Ok(writeln!(self.script, "{}", OTHERS[usize::from(way % 4)])?),
        }
    }

    fn put_corners(&mut self, corners: &Corners) -> Result<(), Fail> {
        put_place(&mut self.lines, &corners.lo[..], self.dims)?;
        put_place(&mut self.lines, &corners.hi[..], self.dims)?;
        Ok(self.lines.push_str("\n")?)
    }

    fn ask_points(&mut self) -> Result<(), Fail> {
        let corners = self.corners();
        self.lines.push_str("points")?;
        self.put_corners(&corners)?;
        let dims = self.dims;
        let points = self
            .live
            .iter()
            .filter(|(_, place)| is_in(&corners, &place[..], dims))
            .count();
        writeln!(self.answers, "points {points}")?;
        Ok(())
    }

    /// Asks for a grid of the first dimension and the last.
    fn ask_grid(&mut self) -> Result<(), Fail> {
        let corners = self.corners();
        let steps = (1 + self.draws.byte() % 8, 1 + self.draws.byte() % 8);
        let last = self.dims.saturating_sub(1);
        write!(self.lines, "grid 0 {} {last} {}", steps.0, steps.1)?;
        self.put_corners(&corners)?;
        let answer = self.grid(&corners, last, steps)?;
        Ok(self.answers.push_str(answer.as_str())?)
    }

    /// What a scan answers to a grid.
    fn grid(&self, corners: &Corners, last: usize, steps: (u8, u8)) -> Result<String, Fail> {
        let mut buckets = 0u32;
        let mut told = String::new(self.alloc);
        for i in 0..16 {
            for j in 0..16 {
                let points = self.bucket(corners, last, (i, j), steps);
                if points > 0 {
                    buckets = buckets.wrapping_add(1);
                    writeln!(told, "{i} {j} {points}")?;
                }
            }
        }
        let mut answer = String::new(self.alloc);
        writeln!(answer, "buckets {buckets}")?;
        answer.push_str(told.as_str())?;
        Ok(answer)
    }

    /// How many points of the box lie in the bucket with these numbers, counted from its least corner.
    fn bucket(&self, corners: &Corners, last: usize, at: (u8, u8), steps: (u8, u8)) -> usize {
        let dims = self.dims;
        self.live
            .iter()
            .filter(|(_, place)| {
                is_in(corners, &place[..], dims)
                    && lies(corners, &place[..], 0, at.0, steps.0)
                    && lies(corners, &place[..], last, at.1, steps.1)
            })
            .count()
    }
}

/// Puts the coordinates that are used.
fn put_place(text: &mut String, place: &[u8], dims: usize) -> Result<(), Fail> {
    for coordinate in place.iter().take(dims) {
        write!(text, " {coordinate}")?;
    }
    Ok(())
}

/// Whether a point lies in a box.
fn is_in(corners: &Corners, place: &[u8], dims: usize) -> bool {
    let mut ends = corners
        .lo
        .iter()
        .zip(corners.hi.iter())
        .zip(place.iter())
        .take(dims);
    ends.all(|((lo, hi), at)| lo <= at && at <= hi)
}

/// Whether a point lies in the step with this number of a dimension.
fn lies(corners: &Corners, place: &[u8], dimension: usize, number: u8, step: u8) -> bool {
    match (place.get(dimension), corners.lo[..].get(dimension)) {
        (Some(at), Some(from)) => is_step(*at, *from, number, step),
        _ => false,
    }
}

/// Whether a coordinate lies in the step with this number, of which step 0 begins at `from`.
fn is_step(at: u8, from: u8, number: u8, step: u8) -> bool {
    let beyond = u32::from(at.wrapping_sub(from));
    let begin = u32::from(number).wrapping_mul(u32::from(step));
    begin <= beyond && beyond < begin.wrapping_add(u32::from(step))
}

fn drawn_story(alloc: Global, dims: usize) -> Result<Story, Fail> {
    let mut story = Story {
        alloc,
        dims,
        draws: Draws { seed: 20_261_129 },
        next: 0,
        live: Vec::new(alloc),
        script: String::new(alloc),
        lines: String::new(alloc),
        answers: String::new(alloc),
    };
    writeln!(story.script, "create {dims} leaf 4")?;
    for _ in 0..200 {
        story.put_line()?;
    }
    for _ in 0..60 {
        story.ask_points()?;
        if dims > 1 {
            story.ask_grid()?;
        }
    }
    Ok(story)
}

#[test]
fn drawn_counts_agree_with_a_scan(rt: HostRuntime) -> Result<(), Fail> {
    for dims in 1..5 {
        let story = drawn_story(rt.alloc(), dims)?;
        let mut folder = MemFolder::new(rt.alloc(), Vec::new(rt.alloc()));
        called(
            &rt,
            rt.alloc(),
            &[".", "run"],
            story.script.as_str(),
            &mut folder,
        )?;
        let (status, text) = called(
            &rt,
            rt.alloc(),
            &[".", "count"],
            story.lines.as_str(),
            &mut folder,
        )?;
        same(&rt, text.as_str(), story.answers.as_str());
        same(&rt, code(&status), 0);
    }
    Ok(())
}
