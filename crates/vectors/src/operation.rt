ghost use Rattle.std.specs.Prelude.{◌≡◌, IfOk, IfSome};
ghost use Rattle.vectors.specs.Operations.{operation_name, unary_name};

use crate::line::Malformed;
use ecma::{BinaryOperator, UnaryOperator, UpdateOperator};
use std::str::FromStr;

// What a line asks for, by its name alone. A `Question` has the operands too, which are read by kinds that differ.
#[derive(Clone, Copy)]
pub enum Operation {
    Binary(BinaryOperator),
    Unary(UnaryOperator),
    Update(UpdateOperator),
    ToInt32,
    ToUint32,
    ToBoolean,
    SameValue,
}

impl FromStr for Operation {
    type Err = Malformed;

    ghost from_str_gives = { λ name r. IfOk r (λ o. operation_name o ≡ name) };

    fn from_str(name: &str) -> Result<Operation, Malformed> {
        if let Ok(operator) = name.parse() {
            return Ok(Operation::Binary(operator));
        }
        if let Some(operator) = unary(name) {
            return Ok(Operation::Unary(operator));
        }
        match name {
            "inc" => Ok(Operation::Update(UpdateOperator::Increment)),
            "dec" => Ok(Operation::Update(UpdateOperator::Decrement)),
            "ToInt32" => Ok(Operation::ToInt32),
            "ToUint32" => Ok(Operation::ToUint32),
            "ToBoolean" => Ok(Operation::ToBoolean),
            "SameValue" => Ok(Operation::SameValue),
            _ => Err(Malformed),
        }
    }
}

// In words, since a minus is a binary operator here.
fn unary(name: &str) -> Option<UnaryOperator>
    ensures { IfSome result (λ o. unary_name o ≡ name.now) }
{
    match name {
        "neg" => Some(UnaryOperator::Minus),
        "pos" => Some(UnaryOperator::Plus),
        "not" => Some(UnaryOperator::Not),
        "bitnot" => Some(UnaryOperator::BitwiseNot),
        "typeof" => Some(UnaryOperator::TypeOf),
        "void" => Some(UnaryOperator::Void),
        _ => None,
    }
}
