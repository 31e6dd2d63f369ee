ghost use Rattle.fold.specs.Evaluation.{evaluation_of};
ghost use Rattle.ecma.specs.Value.{value_of};
ghost use Rattle.std.specs.Option.{option_map};
ghost use Rattle.std.specs.Prelude.{◌≡◌, None, slice_index_or};

use crate::operation::Operation;
use ecma::{PrimitiveValue, evaluate_binary_op, evaluate_unary_op};

// The value of instruction `number`, if it is known.
fn operand<'a>(known: &[Option<PrimitiveValue<'a>>], number: usize) -> Option<PrimitiveValue<'a>>
    ensures { result ≡ slice_index_or known.now number None }
{
    known.get(number).copied().flatten()
}

// What the operation gives, where `known` has the values of the instructions before it.
pub fn evaluate<'a>(
    operation: Operation,
    known: &[Option<PrimitiveValue<'a>>],
) -> Option<PrimitiveValue<'a>>
    ensures { option_map value_of result ≡ evaluation_of known.now operation }
{
    match operation {
        Operation::Literal(x) => Some(PrimitiveValue::from(x)),
        Operation::Unary(operator, value) => evaluate_unary_op(operator, operand(known, value)?),
        Operation::Binary(operator, left, right) => {
            let lhs = operand(known, left)?;
            let rhs = operand(known, right)?;
            evaluate_binary_op(operator, lhs, rhs, None)?.value()
        }
    }
}
