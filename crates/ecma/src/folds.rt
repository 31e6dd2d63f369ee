// What an operator gives at known values.
ghost use Rattle.ecma.specs.declared.folds.Folded.TheVariants.{Boolean, Number};
ghost use Rattle.ecma.specs.Operators.{binary_fold, folded_of, unary_fold, update_fold, value_at_once};
ghost use Rattle.ecma.specs.Value.{Primitive, value_of};
ghost use Rattle.std.specs.Option.{option_map};
ghost use Rattle.std.specs.Prelude.{◌≡◌, Some, None};

use crate::comparison::{is_loosely_equal, is_strictly_equal, to_boolean};
use crate::multiples::remainder;
use crate::number::{
    bitwise_and, bitwise_or, bitwise_xor, left_shift, less_than, less_than_or_equal,
    signed_right_shift, unsigned_right_shift,
};
use crate::operators::{BinaryOperator, UnaryOperator, UpdateOperator};
use crate::primitive_value::PrimitiveValue;

// What a binary operator gives: a Boolean, a Number, or that the two operands, which are Strings,
// are to be joined. Whoever keeps the texts does that.
#[derive(Clone, Copy, PartialEq, Debug)]
pub enum Folded {
    Boolean(bool),
    Number(f64),
    Join,
}

impl Folded {
    // The value, where there is one at once.
    pub fn value(self) -> Option<PrimitiveValue<'static>>
        ensures { option_map value_of result ≡ value_at_once self }
    {
        match self {
            Folded::Boolean(b) => Some(b.into()),
            Folded::Number(x) => Some(x.into()),
            Folded::Join => None,
        }
    }
}

impl From<bool> for Folded {
    ghost from_gives = { λ b r. r ≡ Boolean b };

    fn from(b: bool) -> Self {
        Self::Boolean(b)
    }
}

impl From<f64> for Folded {
    ghost from_gives = { λ x r. r ≡ Number x };

    fn from(x: f64) -> Self {
        Self::Number(x)
    }
}

// What a binary operator gives at two Numbers.
#[tactic(auto, using(crate::proofs::Order::derived))]
fn evaluate_numbers(operator: BinaryOperator, l: f64, r: f64) -> Option<Folded>
    ensures { option_map (folded_of (Primitive.number l) (Primitive.number r)) result ≡ binary_fold (λ _. None) operator (Primitive.number l) (Primitive.number r) }
{
    let folded = match operator {
        BinaryOperator::Addition => Folded::from(l + r),
        BinaryOperator::Subtraction => Folded::from(l - r),
        BinaryOperator::Multiplication => Folded::from(l * r),
        BinaryOperator::Division => Folded::from(l / r),
        BinaryOperator::Remainder => Folded::from(remainder(l, r)),
        BinaryOperator::BitwiseOR => Folded::from(bitwise_or(l, r)),
        BinaryOperator::BitwiseAnd => Folded::from(bitwise_and(l, r)),
        BinaryOperator::BitwiseXOR => Folded::from(bitwise_xor(l, r)),
        BinaryOperator::ShiftLeft => Folded::from(left_shift(l, r)),
        BinaryOperator::ShiftRight => Folded::from(signed_right_shift(l, r)),
        BinaryOperator::ShiftRightZeroFill => Folded::from(unsigned_right_shift(l, r)),
        BinaryOperator::LessThan => Folded::from(less_than(l, r)),
        BinaryOperator::LessEqualThan => Folded::from(less_than_or_equal(l, r)),
        BinaryOperator::GreaterThan => Folded::from(less_than(r, l)),
        BinaryOperator::GreaterEqualThan => Folded::from(less_than_or_equal(r, l)),
        BinaryOperator::StrictEquality | BinaryOperator::Equality => Folded::from(l == r),
        BinaryOperator::StrictInequality | BinaryOperator::Inequality => Folded::from(l != r),
        BinaryOperator::Exponential | BinaryOperator::In | BinaryOperator::Instanceof =>
            return None,
    };
    Some(folded)
}

// `text_number` is as in `is_loosely_equal`.
pub fn evaluate_binary_op(
    operator: BinaryOperator,
    lhs: PrimitiveValue,
    rhs: PrimitiveValue,
    text_number: Option<f64>,
) -> Option<Folded>
    ensures { option_map (folded_of (value_of lhs.entry) (value_of rhs.entry)) result ≡ binary_fold (λ _. text_number) operator (value_of lhs.entry) (value_of rhs.entry) }
{
    if let (PrimitiveValue::Number(l), PrimitiveValue::Number(r)) = (lhs, rhs) {
        return evaluate_numbers(operator, l.value(), r.value());
    }
    let folded = match operator {
        BinaryOperator::Addition => match (lhs, rhs) {
            (PrimitiveValue::String(_), PrimitiveValue::String(_)) => Folded::Join,
            _ => return None,
        },
        BinaryOperator::StrictEquality => Folded::from(is_strictly_equal(lhs, rhs)),
        BinaryOperator::StrictInequality => Folded::from(!is_strictly_equal(lhs, rhs)),
        BinaryOperator::Equality => Folded::from(is_loosely_equal(lhs, rhs, text_number)?),
        BinaryOperator::Inequality => Folded::from(!is_loosely_equal(lhs, rhs, text_number)?),
        _ => return None,
    };
    Some(folded)
}

#[tactic(auto, using(crate::proofs::Order::sub_one))]
pub fn evaluate_update_op(operation: UpdateOperator, value: f64) -> f64
    ensures { result ≡ update_fold operation value }
{
    match operation {
        UpdateOperator::Increment => value + 1.0,
        UpdateOperator::Decrement => value - 1.0,
    }
}

pub fn evaluate_unary_op(operator: UnaryOperator, value: PrimitiveValue) -> Option<PrimitiveValue>
    ensures { option_map value_of result ≡ unary_fold operator (value_of value.entry) }
{
    match operator {
        UnaryOperator::Not => Some(PrimitiveValue::from(!to_boolean(value))),
        UnaryOperator::Minus => match value {
            PrimitiveValue::Number(n) => Some(PrimitiveValue::from(-n.value())),
            _ => None,
        },
        UnaryOperator::Plus
        | UnaryOperator::BitwiseNot
        | UnaryOperator::TypeOf
        | UnaryOperator::Void => None,
    }
}
