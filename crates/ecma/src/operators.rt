// The operators, in the order of the Rust source.

#[derive(Clone, Copy, PartialEq, Eq, Debug)]
pub enum BinaryOperator {
    Addition,
    Subtraction,
    Multiplication,
    Division,
    Remainder,
    Exponential,
    BitwiseOR,
    BitwiseAnd,
    BitwiseXOR,
    ShiftLeft,
    ShiftRight,
    ShiftRightZeroFill,
    LessThan,
    LessEqualThan,
    GreaterThan,
    GreaterEqualThan,
    StrictEquality,
    StrictInequality,
    Equality,
    Inequality,
    In,
    Instanceof,
}

#[derive(Clone, Copy, PartialEq, Eq, Debug)]
pub enum UnaryOperator {
    Minus,
    Plus,
    Not,
    BitwiseNot,
    TypeOf,
    Void,
}

#[derive(Clone, Copy, PartialEq, Eq, Debug)]
pub enum UpdateOperator {
    Increment,
    Decrement,
}
