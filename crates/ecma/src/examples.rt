ghost use Rattle.ecma.specs.Examples.{WorkedExamples};

// Says nothing by itself: its contract is the theorem that the examples follow from the definitions.
pub fn worked_examples()
    ensures { WorkedExamples }
{}
