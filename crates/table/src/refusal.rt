ghost use Rattle.table.specs.Refusals.{number_of};
ghost use Rattle.std.specs.Prelude.{◌≡◌};

// Why something is refused: the rows of the table in docs/REFUSALS.md, in their order.
#[derive(Clone, Copy, PartialEq, Eq, Debug)]
pub enum Cause {
    TableFull = 1,
    NotUtf8 = 2,
    TextDoesNotFit = 3,
    NamesNothing = 4,
    KindNotTaken = 5,
    NoTerminal = 6,
    AssignedTwice = 7,
    PhiOperands = 8,
    EdgeBack = 9,
    UseBeforeDefinition = 10,
}

// The stage that refuses.
#[derive(Clone, Copy, PartialEq, Eq, Debug)]
pub enum Layer {
    Text,
    Draft,
    Seal,
    Round,
    Question,
}

// Which part is refused, by the number that it has or would have had.
#[derive(Clone, Copy, PartialEq, Eq, Debug)]
pub enum Site {
    Parameter(u32),
    Text(u32),
    Block(u32),
    Phi(u32),
    Instruction(u32),
    Terminal(u32),
    // the end of a block, where the operands of phis after it are used
    End(u32),
    // a number that a question asked about
    Asked(u32),
}

#[derive(Clone, Copy, PartialEq, Eq, Debug)]
pub struct Refusal {
    pub cause: Cause,
    pub layer: Layer,
    pub site: Site,
}

impl Cause {
    // The number of the cause's row.
    pub fn number(self) -> u8
        ensures { result ≡ number_of self }
    {
        self as u8
    }
}
