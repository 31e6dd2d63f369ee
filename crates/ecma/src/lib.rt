// ECMAScript's primitive values and what its operators give at them, each proved to be what
// ECMA-262 defines (specs/), and how its binary operators are spelled. No text is made here, and nothing is kept.
#![tactic(auto)]

mod comparison;
mod examples;
mod float_value;
mod folds;
mod int32;
mod multiples;
mod number;
mod operators;
mod primitive_value;
mod spelling;

pub use comparison::{converted_text, is_loosely_equal, is_strictly_equal, same_value, to_boolean};
pub use examples::worked_examples;
pub use float_value::FloatValue;
pub use folds::{Folded, evaluate_binary_op, evaluate_unary_op, evaluate_update_op};
pub use int32::{to_int32, to_uint32};
pub use operators::{BinaryOperator, UnaryOperator, UpdateOperator};
pub use primitive_value::PrimitiveValue;
pub use spelling::NoOperator;
