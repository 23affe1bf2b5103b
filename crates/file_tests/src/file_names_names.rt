//! Names in turn, at the ends of the types, and taken out.

ghost use Rattle.std.specs.Prelude.{◌≡◌};
ghost use Rattle.outer_io.specs.declared.file_name.FileName.TheVariants.{Live};

use crate::asserts::same;
use file_names::FileNames;
use outer_io::FileName;
use std::alloc::Global;
use std::process::Abort;
use std::test::Fail;

/// The names after two segments of which the first has two generations of live bits.
const NAMES: [FileName; 5] = [
    FileName::Segment(0),
    FileName::Live {
        segment: 0,
        generation: 1,
    },
    FileName::Segment(1),
    FileName::Live {
        segment: 0,
        generation: 2,
    },
    FileName::Live {
        segment: 1,
        generation: 1,
    },
];

fn live(segment: u64, generation: u64) -> FileName
    ensures { result ≡ Live segment generation }
{
    FileName::Live {
        segment,
        generation,
    }
}

/// The name of the next segment, and of the next live bits of this one.
fn named(names: &mut FileNames, segment: u64) -> Result<(u64, u64), Fail> {
    Ok((names.name_segment()?, names.name_live(segment)?))
}

/// Names given in turn, which are those of `NAMES`.
fn in_turn(rt: &(impl Abort + AllocGlobal)) -> Result<FileNames, Fail> {
    let mut names = FileNames::new(rt.alloc());
    same(rt, named(&mut names, 0)?, (0, 1));
    same(rt, named(&mut names, 0)?, (1, 2));
    same(rt, (names.name_live(1)?, names.next_segment()), (1, 2));
    Ok(names)
}

#[test]
fn names_in_turn(rt: HostRuntime) -> Result<(), Fail> {
    let names = in_turn(&rt)?;
    same(&rt, names.as_slice(), NAMES.as_slice());
    Ok(())
}

#[test]
fn names_are_taken_out(rt: HostRuntime) -> Result<(), Fail> {
    let mut names = in_turn(&rt)?;
    names.remove(&live(0, 1));
    same(
        &rt,
        (names.has(&live(0, 1)), names.has(&live(0, 2))),
        (false, true),
    );
    names.retain(|name| *name != FileName::Segment(1));
    names.remove(&live(0, 2));
    same(&rt, names.as_slice(), [NAMES[0], NAMES[4]].as_slice());
    same(&rt, (names.name_live(0)?, names.name_segment()?), (1, 2));
    Ok(())
}

/// Segments that are there, below the greatest id.
fn few_segments(alloc: Global) -> Result<FileNames, Fail> {
    let mut names = FileNames::of_commit(alloc, u64::MAX - 1);
    names.add(FileName::Segment(0))?;
    names.add(FileName::Segment(1))?;
    names.add(FileName::Segment(3))?;
    Ok(names)
}

/// The name of the next segment, and the id behind it.
fn next_name(names: &mut FileNames) -> Result<(u64, u64), Fail> {
    Ok((names.name_segment()?, names.next_segment()))
}

#[test]
fn ids_at_the_end(rt: HostRuntime) -> Result<(), Fail> {
    let mut names = few_segments(rt.alloc())?;
    same(&rt, names.name_segment()?, u64::MAX - 1);
    for id in [2, 4, 5] {
        same(&rt, next_name(&mut names)?, (id, u64::MAX));
    }
    Ok(())
}

/// Live bits of the segments 7 and 8, of which one has the greatest generation.
fn few_generations(alloc: Global) -> Result<FileNames, Fail> {
    let mut names = FileNames::of_commit(alloc, u64::MAX - 1);
    names.add(live(7, 0))?;
    names.add(live(7, u64::MAX))?;
    names.add(live(8, 1))?;
    Ok(names)
}

#[test]
fn generations_at_the_end(rt: HostRuntime) -> Result<(), Fail> {
    let mut names = few_generations(rt.alloc())?;
    same(&rt, (names.name_live(7)?, names.name_live(7)?), (1, 2));
    same(&rt, (names.name_live(8)?, names.name_live(9)?), (2, 1));
    Ok(())
}
