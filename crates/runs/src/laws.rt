// Functions whose contracts are theorems about the definitions. They compute nothing.
ghost use Rattle.runs.specs.Folds.{FoldsAreMonotone};
ghost use Rattle.runs.specs.Law.{TurnedWithinSealed};

pub fn folds_are_monotone()
    ensures { FoldsAreMonotone }
{}

#[tactic(auto, using(crate::proofs::Counted::turned_within))]
pub fn turned_within_sealed()
    ensures { TurnedWithinSealed }
{}
