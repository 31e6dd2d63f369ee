// The text of a line that is printed.
use crate::operation::Operation;
use ecma::{PrimitiveValue, UnaryOperator};
use std::fmt;

// An instruction with its number and what it stands for, and the value that it became, if any.
#[derive(Clone, Copy)]
pub struct Row<'a> {
    pub number: usize,
    pub name: &'a str,
    pub operation: Operation,
    pub value: Option<PrimitiveValue<'a>>,
}

impl fmt::Display for Row<'_> {
    fn fmt<W: fmt::Write>(&self, f: &mut fmt::Formatter<W>) -> fmt::Result {
        write!(f, "#{} {}: {} ", self.number, self.name, self.operation)?;
        match self.value {
            Some(value) => write!(f, "=> {}", Shown(value)),
            None => write!(f, "stays"),
        }
    }
}

impl fmt::Display for Operation {
    fn fmt<W: fmt::Write>(&self, f: &mut fmt::Formatter<W>) -> fmt::Result {
        match *self {
            Operation::Literal(x) => write_number(x, f),
            Operation::Unary(operator, value) => write!(f, "{}#{value}", prefix(operator)),
            Operation::Binary(operator, left, right) => { write!(f, "#{left} {operator} #{right}") }
        }
    }
}

// A value as it is shown.
#[derive(Clone, Copy)]
struct Shown<'a>(PrimitiveValue<'a>);

impl fmt::Display for Shown<'_> {
    fn fmt<W: fmt::Write>(&self, f: &mut fmt::Formatter<W>) -> fmt::Result {
        match self.0 {
            PrimitiveValue::Null => write!(f, "null"),
            PrimitiveValue::Undefined => write!(f, "undefined"),
            PrimitiveValue::Boolean(b) => write!(f, "{b}"),
            PrimitiveValue::Number(x) => write_number(x.value(), f),
            PrimitiveValue::String(_) => write!(f, "a text"),
        }
    }
}

// NaN and the infinities by name, another number, -0 among them, by the shortest digits that read back as it.
fn write_number<W: fmt::Write>(x: f64, f: &mut fmt::Formatter<W>) -> fmt::Result {
    if x == f64::INFINITY {
        return write!(f, "Infinity");
    }
    if x == f64::NEG_INFINITY {
        return write!(f, "-Infinity");
    }
    write!(f, "{x}")
}

// Not a Display of ecma's: `vectors` spells these in words, since a minus is a binary operator there.
fn prefix(operator: UnaryOperator) -> &'static str {
    match operator {
        UnaryOperator::Minus => "-",
        UnaryOperator::Plus => "+",
        UnaryOperator::Not => "!",
        UnaryOperator::BitwiseNot => "~",
        UnaryOperator::TypeOf => "typeof ",
        UnaryOperator::Void => "void ",
    }
}
