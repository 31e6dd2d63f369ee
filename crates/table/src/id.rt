ghost use Rattle.std.specs.Prelude.{◌≡◌, ℕ};

use std::marker::PhantomData;

// A kind of number, with how many numbers of it there may be. They count from 0.
pub trait IdKind {
    // the constant as clauses name it: the check proves the two equal
    ghost LIMIT: { ℕ };

    const LIMIT: u32;
}

// A number of the kind K.
#[derive_where(Clone, Copy, PartialEq, Eq, Debug)]
pub struct Id<K> {
    number: u32,
    kind: PhantomData<K>,
}

impl<K> Id<K> {
    pub fn new(number: u32) -> Self
        ensures { result.number ≡ number }
    {
        Id {
            number,
            kind: PhantomData,
        }
    }

    pub fn number(self) -> u32
        ensures { result ≡ self.number }
    {
        self.number
    }
}

pub struct Blocks;

pub struct Identifiers;

pub struct Instructions;

pub struct Phis;

pub struct Texts;

pub type BlockId = Id<Blocks>;

pub type IdentifierId = Id<Identifiers>;

pub type InstructionId = Id<Instructions>;

pub type PhiId = Id<Phis>;

pub type TextId = Id<Texts>;

// A type for each kind, though identifiers and texts have one limit: their numbers must not be taken for one another.
impl IdKind for Blocks {
    ghost LIMIT = { 1024 };

    const LIMIT: u32 = 1024;
}

impl IdKind for Identifiers {
    ghost LIMIT = { 4096 };

    const LIMIT: u32 = 4096;
}

impl IdKind for Instructions {
    ghost LIMIT = { 8192 };

    const LIMIT: u32 = 8192;
}

impl IdKind for Phis {
    ghost LIMIT = { 2048 };

    const LIMIT: u32 = 2048;
}

impl IdKind for Texts {
    ghost LIMIT = { 4096 };

    const LIMIT: u32 = 4096;
}
