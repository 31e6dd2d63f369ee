ghost use Rattle.host.specs.Examples.{WorkedExamples};

// Its contract is the theorem that the examples follow from the definitions.
pub fn worked_examples()
    ensures { WorkedExamples }
{}
