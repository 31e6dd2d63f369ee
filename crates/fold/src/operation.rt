use ecma::{BinaryOperator, UnaryOperator};

// What an instruction does. It names its operands by the numbers of the instructions that made them.
#[derive(Clone, Copy)]
pub enum Operation {
    Literal(f64),
    Unary(UnaryOperator, usize),
    Binary(BinaryOperator, usize, usize),
}
