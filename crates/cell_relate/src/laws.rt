//! Laws of how cells lie to shapes. Each function has an empty body: its contract is the law.

ghost use Rattle.std.specs.Prelude.{◌≡◌, ◌↔◌, Bool, true, List, ℤ};
ghost use Rattle.point_codec.specs.Points.{Region};
ghost use Rattle.cell_relate.specs.Relations.{RelatesTo, is_outside};
ghost use Rattle.cell_relate.specs.declared.shape.Relation.{Relation};
ghost use Rattle.cell_relate.specs.declared.shape.Relation.TheVariants.{Outside};

/// A cell is outside by its least corner exactly where a right answer on it is Outside.
pub fn corner_tells_outside()
    ensures { (has : List ℤ → Bool) (crosses : Region → Bool) (cell : Region) (answer : Relation)
        → RelatesTo has crosses cell answer → (is_outside has crosses cell ≡ true) ↔ (answer ≡ Outside) }
{}
