//! A script and a load in each number of dimensions.

use crate::asserts::{same, same_at};
use bkd_top::code;
use outer_io::MemFolder;
use program_tests::fixtures::called;
use std::alloc::Global;
use std::fmt::Write;
use std::marker::Sync;
use std::process::Abort;
use std::test::Fail;
use std::thread::Threads;

/// The points that come and are asked for: each has the same coordinate in all dimensions.
const COORDINATES: [i32; 3] = [1, 2, -3];

/// Puts a point whose coordinates are all the same behind a text, each behind a separator.
fn put_point(text: &mut String, separator: char, coordinate: i32, dims: usize) -> Result<(), Fail> {
    for _ in 0..dims {
        write!(text, "{separator}{coordinate}")?;
    }
    Ok(())
}

/// A line of a command and points.
fn put_line(text: &mut String, command: &str, points: &[i32], dims: usize) -> Result<(), Fail> {
    text.push_str(command)?;
    for coordinate in points {
        put_point(text, ' ', *coordinate, dims)?;
    }
    text.push('\n')?;
    Ok(())
}

/// A script that adds the points in two segments, asks for two of them, deletes the first and merges.
fn script_of(alloc: Global, dims: usize) -> Result<String, Fail> {
    let mut script = String::new(alloc);
    writeln!(script, "create {dims} leaf 2")?;
    put_line(&mut script, "add", &COORDINATES[..1], dims)?;
    put_line(&mut script, "add", &COORDINATES[1..2], dims)?;
    script.push_str("flush\n")?;
    put_line(&mut script, "add", &COORDINATES[2..], dims)?;
    put_line(&mut script, "box", &[0, 5], dims)?;
    put_line(&mut script, "nearest 1", &[0], dims)?;
    script.push_str("delete 0\nmerge\n")?;
    put_line(&mut script, "nearest 2", &[0], dims)?;
    Ok(script)
}

/// What it answers: a squared distance is that of one dimension times their number.
fn answers_of(alloc: Global, dims: usize) -> Result<String, Fail> {
    let mut text = String::new(alloc);
    let dims = dims as u64;
    text.push_str("ok\ndoc 0\ndoc 1\nok\ndoc 2\nhits 2\n0\n1\n")?;
    writeln!(text, "near 1\n0 {}", dims)?;
    text.push_str("deleted 1\nok\n")?;
    writeln!(
        text,
        "near 2\n1 {}\n2 {}",
        dims.saturating_mul(4),
        dims.saturating_mul(9)
    )?;
    Ok(text)
}

const NAMES: &str = "a,b,c,d,e,f,g,h";

/// A CSV file of the points, with one column more in front, and the names of its columns.
fn file_of(alloc: Global, dims: usize) -> Result<String, Fail> {
    let mut file = String::from_str(alloc, "id,")?;
    file.push_str(NAMES)?;
    file.push('\n')?;
    for (number, coordinate) in COORDINATES.iter().enumerate() {
        write!(file, "{number}")?;
        put_point(&mut file, ',', *coordinate, dims)?;
        // columns that nobody asks for
        put_point(&mut file, ',', 7, 8_usize.saturating_sub(dims))?;
        file.push('\n')?;
    }
    Ok(file)
}

fn runs_in<R: Threads + Sync + Abort>(rt: &R, alloc: Global, dims: usize) -> Result<(), Fail> {
    let mut folder = MemFolder::new(alloc, Vec::new(alloc));
    let script = script_of(alloc, dims)?;
    let (status, text) = called(rt, alloc, &[".", "run"], script.as_str(), &mut folder)?;
    same_at(rt, text.as_str(), answers_of(alloc, dims)?.as_str(), &dims);
    same(rt, code(&status), 0);
    Ok(())
}

fn loads_in<R: Threads + Sync + Abort>(rt: &R, alloc: Global, dims: usize) -> Result<(), Fail> {
    let mut folder = MemFolder::new(alloc, Vec::new(alloc));
    let file = file_of(alloc, dims)?;
    let columns = NAMES
        .get(..dims.saturating_mul(2).saturating_sub(1))
        .unwrap_or(NAMES);
    let words = [".", "load", "--columns", columns];
    let (_, text) = called(rt, alloc, &words, file.as_str(), &mut folder)?;
    same_at(rt, text.as_str(), "loaded 3\nnext 3\n", &dims);
    let mut lines = String::new(alloc);
    put_line(&mut lines, "nearest 2", &[0], dims)?;
    let (status, text) = called(rt, alloc, &[".", "run"], lines.as_str(), &mut folder)?;
    let mut told = String::new(alloc);
    writeln!(told, "near 2\n0 {}\n1 {}", dims, dims.saturating_mul(4))?;
    same_at(rt, text.as_str(), told.as_str(), &dims);
    same(rt, code(&status), 0);
    Ok(())
}

#[test]
fn scripts_and_loads_in_each_number_of_dimensions(rt: HostRuntime) -> Result<(), Fail> {
    for dims in 1..9 {
        runs_in(&rt, rt.alloc(), dims)?;
        loads_in(&rt, rt.alloc(), dims)?;
    }
    Ok(())
}
