//! Laws of ranges. Each function has an empty body: its contract is the law.

ghost use Rattle.std.specs.Prelude.{◌≡◌, ℕ, ◌/◌, List, length, Some, Ok};
ghost use Rattle.point_codec.specs.Points.{Region};
ghost use Rattle.range_docs.specs.Ranges.{Decides, HasAnswers, box_for, is_boxed};
ghost use Rattle.range_docs.specs.Reading.{RangeRequest, range_read};
ghost use Rattle.range_docs.specs.Seen.{NamesRanges};
ghost use Rattle.range_docs.specs.declared.ranges.Question.{Question};

/// The box for a question has just the ranges that are answers.
pub fn boxes_have_answers()
    ensures { (question : Question) (r : ℕ) (query : Region) → length query.lo ≡ r → length query.hi ≡ r
        → HasAnswers question r query (box_for question query) }
{}

/// To look whether a stored range is in the box decides whether it is an answer.
pub fn boxes_decide()
    ensures { Decides is_boxed }
{}

/// What a line adds are ranges, and what it looks for is on a range.
pub fn lines_name_ranges()
    ensures { (dims : ℕ) (line : List ℕ) (request : RangeRequest) → range_read (Some dims) line ≡ Ok request
        → NamesRanges (dims / 2) request }
{}
