use crate::value::Value;
use ecma::{BinaryOperator, UnaryOperator, UpdateOperator};

// An operation at its operands. `text_number` is the number of the text that == or != compares as
// a number, where it is given.
#[derive(Drop)]
pub enum Question {
    Binary {
        operator: BinaryOperator,
        left: Value,
        right: Value,
        text_number: Option<f64>,
    },
    Unary {
        operator: UnaryOperator,
        operand: Value,
    },
    Update {
        operator: UpdateOperator,
        operand: f64,
    },
    ToInt32(f64),
    ToUint32(f64),
    ToBoolean(Value),
    SameValue(Value, Value),
}

// A question and its answer: nothing where the operation must not fold.
#[derive(Drop)]
pub struct Vector {
    pub question: Question,
    pub answer: Option<Value>,
}
