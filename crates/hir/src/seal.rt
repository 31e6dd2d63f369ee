ghost use Rattle.hir.specs.Accepted.{Acceptance};
ghost use Rattle.hir.specs.Examples.{OneRefusal, SealExamples};

// Functions whose contracts are theorems about the definitions. They compute nothing.
#[tactic(auto, using(crate::proofs::OneRefusal::one_refusal))]
pub fn one_refusal()
    ensures { OneRefusal }
{}

pub fn seal_examples()
    ensures { SealExamples }
{}

#[tactic(auto, using(crate::proofs::AcceptedFacts::accepted))]
pub fn acceptance()
    ensures { Acceptance }
{}
