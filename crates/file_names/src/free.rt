//! How new names are numbered: which segment's id and which generation of live bits are still free.

ghost use Rattle.std.specs.Prelude.{◌≡◌, ◌<◌, ◌≤◌, ◌-◌, ◌^◌, false, length, max};
ghost use Rattle.std.specs.List.{reduce};
ghost use Rattle.outer_io.specs.declared.file_name.FileName.TheVariants.{Segment, Live};
ghost use Rattle.file_names.specs.declared.free.Series.TheVariants.{Generations};
ghost use Rattle.file_names.specs.Names.{is_named, AreBelow, IsLeastFree, IsNextId, IsNextGeneration};
ghost use Rattle.file_names.specs.Series.{name_in, number_in, numbers_in};

use outer_io::FileName;

/// Names that differ in one number.
#[derive(Clone, Copy)]
pub(crate) enum Series {
    /// The trees of segments, by id.
    Segments,
    /// The live bits of a segment, by generation.
    Generations(u64),
}

impl Series {
    fn name(self, number: u64) -> FileName
        ensures { result ≡ name_in self number }
    {
        match self {
            Series::Segments => FileName::Segment(number),
            Series::Generations(segment) => FileName::Live {
                segment,
                generation: number,
            },
        }
    }
}

#[tactic(auto, unfolding(crate::specs::Names::is_named))]
pub(crate) fn has(names: &[FileName], name: &FileName) -> bool
    ensures { result ≡ is_named names.now name.now }
{
    names.iter().any(|n| n.is(name))
}

/// The id of a new segment, and the next one afterwards.
pub(crate) fn next_id(names: &[FileName], next_segment: u64) -> (u64, u64)
    requires few { length names.now < 2 ^ 64 - 1 }
    requires below { AreBelow (record { names = names.now; next_segment = next_segment }) }
    ensures fresh { is_named names.now (Segment result.0) ≡ false }
    ensures next { IsNextId (record { names = names.now; next_segment = next_segment }) result.0 result.1 }
    ensures below { result.0 < result.1 }
    ensures later { next_segment ≤ result.1 }
{
    match next_segment.checked_add(1) {
        Some(next) => (next_segment, next),
        None => (least_free(names, Series::Segments), next_segment),
    }
}

/// The generation of a segment's next live bits.
pub(crate) fn next_generation(names: &[FileName], segment: u64) -> u64
    requires { length names.now < 2 ^ 64 - 1 }
    ensures fresh { is_named names.now (Live segment result) ≡ false }
    ensures rule { IsNextGeneration (λ n. is_named names.now (Live segment n)) result }
{
    let Some(greatest) = greatest_generation(names, segment) else {
        return 1;
    };
    match greatest.checked_add(1) {
        Some(next) => next,
        None => least_free(names, Series::Generations(segment)),
    }
}

/// The least number of a series that isn't taken. No more numbers are taken than there are names.
fn least_free(names: &[FileName], series: Series) -> u64
    requires { length names.now < 2 ^ 64 - 1 }
    ensures least { IsLeastFree (λ n. is_named names.now (name_in series n)) result }
    ensures below { result ≤ length names.now }
{
    let mut number = 0;
    'taken: while has(names, &series.name(number)) {
        number += 1;
    }
    number
}

/// The greatest generation of a segment's live bits, if there is one.
fn greatest_generation(names: &[FileName], segment: u64) -> Option<u64>
    ensures { result ≡ reduce max (numbers_in (Generations segment) names.now) }
{
    names
        .iter()
        .filter_map(|name| generation_of(name, segment))
        .max()
}

/// The generation of a name, where it is that of live bits of this segment.
fn generation_of(name: &FileName, segment: u64) -> Option<u64>
    ensures { result ≡ number_in (Generations segment) name.now }
{
    match *name {
        FileName::Live {
            segment: of,
            generation,
        } if of == segment => Some(generation),
        _ => None,
    }
}
