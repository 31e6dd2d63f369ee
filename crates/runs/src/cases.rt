// Functions whose contracts are theorems about the definitions. They compute nothing.
ghost use Rattle.runs.specs.Cases.{EightCases};
ghost use Rattle.runs.specs.Examples.{RunExamples};

pub fn eight_cases()
    ensures { EightCases }
{}

pub fn run_examples()
    ensures { RunExamples }
{}
