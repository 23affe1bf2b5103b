//! What the scripts in `bench/` time: a part of the index and the plain form of it on the same work, with a printed
//! answer.
#![tactic(auto)]

mod builds;
mod crossed;
mod draws;
mod leaves;
mod pages;
mod partition;
mod queries;
mod rings;
mod stored;

use byte_cursor::Bytes;
use csv_load::read_entries;
use number_text::number;
use outer_io::{StdSource, read_all};
use queries::Walk;
use std::alloc::Global;
use std::io::Lock;
use std::marker::Sync;
use std::thread::Threads;
use std::{env, io};

/// What there is to do.
const COMMANDS: &str =
    "csv, rings, leaves, pages, build, partition, walk or near, with their words";

fn main(rt: HostRuntime) -> io::Result<()> {
    let mut words = Vec::new(rt.alloc());
    for word in env::args(&rt)?.skip(1) {
        words.push(word)?;
    }
    match answer(&rt, &rt, rt.alloc(), words.as_slice()) {
        Some(text) => println!(rt; "{text}"),
        None => println!(rt; "nothing done: {COMMANDS}"),
    }
}

/// What is printed of the work that the words ask for. None where they ask for none, or it couldn't be done.
fn answer<R: Threads + Sync>(
    rt: &HostRuntime,
    threads: &R,
    alloc: Global,
    words: &[String],
) -> Option<String> {
    let (command, words) = words.split_first()?;
    match command.as_str() {
        "csv" => csv(rt, alloc, words),
        "rings" => edges(alloc, words),
        "leaves" => leaf(rt, alloc, words),
        "pages" => page(alloc, words),
        "build" => build(threads, alloc, words),
        "partition" => parts(alloc, words),
        "walk" => walk(threads, alloc, words),
        "near" => near(threads, alloc, words),
        _ => None,
    }
}

/// `csv A B` reads CSV from the standard input, and says how many points these two columns give.
fn csv(rt: &HostRuntime, alloc: Global, words: &[String]) -> Option<String> {
    let [first, second] = words else {
        return None;
    };
    let input = input_of(rt, alloc, 1 << 30)?;
    let points = csv_point_count(alloc, input.as_slice(), first.as_str(), second.as_str());
    format!(in alloc; "points {points}").ok()
}

/// `rings plain|tree POSITIONS QUERIES` asks points and small cells of a star-shaped ring by the plain list of edges or
/// by the edge tree, and says how many are in and how many are met.
fn edges(alloc: Global, words: &[String]) -> Option<String> {
    let [kind, positions, queries] = words else {
        return None;
    };
    let positions = count_of(positions).min(65_535);
    let (inside, met) = rings::inside_and_met(
        alloc,
        kind.as_str() == "tree",
        positions,
        count_of(queries),
    )?;
    format!(in alloc; "inside {inside} met {met}").ok()
}

/// `leaves COUNT TIMES` reads the leaf of that many entries that the standard input holds, over and over, and says how
/// often it was one and what the numbers sum up to.
fn leaf(rt: &HostRuntime, alloc: Global, words: &[String]) -> Option<String> {
    let [count, times] = words else {
        return None;
    };
    let leaf = input_of(rt, alloc, 4096)?;
    let count = count_of(count).min(500) as u16;
    let (found, sum) = leaves::read_over(leaf.as_slice(), count, count_of(times));
    format!(in alloc; "leaves {found} sum {sum}").ok()
}

/// `pages TIMES` checks the digest of a page so many times, and says how often it was whole.
fn page(alloc: Global, words: &[String]) -> Option<String> {
    let [times] = words else {
        return None;
    };
    let found = pages::checked_over(count_of(times));
    format!(in alloc; "whole {found}").ok()
}

/// `build FORKS COUNT ROUNDS` draws so many entries and builds their tree so many times, the upper levels by two
/// threads each, and sums up its bytes.
fn build<R: Threads + Sync>(rt: &R, alloc: Global, words: &[String]) -> Option<String> {
    let [forks, count, rounds] = words else {
        return None;
    };
    let forks = count_of(forks).min(6) as u8;
    let count = count_of(count).clamp(1, 16_777_216);
    let sum = builds::built(rt, alloc, count, forks, count_of(rounds)).ok()?;
    format!(in alloc; "bytes {sum}").ok()
}

/// `partition draw|tree COUNT ROUNDS` draws so many entries and parts them into leaves so many times, and sums up their
/// order.
fn parts(alloc: Global, words: &[String]) -> Option<String> {
    let [kind, count, rounds] = words else {
        return None;
    };
    let count = count_of(count).clamp(1, 16_777_216);
    let sum = partition::parted(alloc, kind.as_str() == "tree", count, count_of(rounds)).ok()?;
    format!(in alloc; "order {sum}").ok()
}

/// `walk inside|tested|boxes COUNT TIMES` writes a segment of so many drawn entries and walks over it so many times,
/// with a box that has all cells, with a shape that tests each entry or with small drawn boxes, and sums up the numbers
/// that it finds.
fn walk<R: Threads + Sync>(rt: &R, alloc: Global, words: &[String]) -> Option<String> {
    let [kind, count, times] = words else {
        return None;
    };
    let kind = match kind.as_str() {
        "inside" => Walk::Inside,
        "tested" => Walk::Tested,
        _ => Walk::Boxes,
    };
    let count = count_of(count).clamp(1, 16_777_216);
    let sum = queries::walked(rt, alloc, kind, count, count_of(times))?;
    format!(in alloc; "hits {sum}").ok()
}

/// `near COUNT TIMES` does the same with queries for the ten nearest to a drawn point.
fn near<R: Threads + Sync>(rt: &R, alloc: Global, words: &[String]) -> Option<String> {
    let [count, times] = words else {
        return None;
    };
    let count = count_of(count).clamp(1, 16_777_216);
    let sum = queries::near(rt, alloc, count, count_of(times))?;
    format!(in alloc; "near {sum}").ok()
}

/// The number that a word spells, or 1.
fn count_of(word: &String) -> u32 {
    number(word.as_bytes()).unwrap_or(1)
}

/// The standard input, where it is no longer than this.
fn input_of(rt: &HostRuntime, alloc: Global, limit: u64) -> Option<Vec<u8>> {
    let mut source = StdSource::new(rt.stdin().lock());
    read_all(alloc, &mut source, limit).ok()
}

/// How many points the two columns of a CSV file give, or 0 where there is a fault.
fn csv_point_count(alloc: Global, input: &[u8], first: &str, second: &str) -> usize {
    let (Ok(first), Ok(second)) = (
        first.as_bytes().to_vec(alloc),
        second.as_bytes().to_vec(alloc),
    ) else {
        return 0;
    };
    let columns = [Bytes::new(first), Bytes::new(second)];
    match read_entries::<2>(alloc, input, &columns, 0) {
        Ok(entries) => entries.len(),
        Err(_) => 0,
    }
}
