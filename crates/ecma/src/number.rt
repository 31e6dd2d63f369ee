// Operations on Numbers, one function for each of the standard's: they differ in the operation, and not in a
// type or a constant. The remainder has a file to itself, and the rest are f64's own.
ghost use Rattle.ecma.specs.Number.{number_bitwise_and, number_bitwise_or, number_bitwise_xor, number_left_shift, number_less_than, number_signed_right_shift, number_unsigned_right_shift, is_zero};
ghost use Rattle.ecma.specs.Operators.{is_false, is_true};
ghost use Rattle.std.specs.Prelude.{◌≡◌};

use crate::int32::{to_int32, to_uint32};

#[tactic(auto, using(crate::proofs::Order::eq_zero))]
pub(crate) fn is_zero(x: f64) -> bool
    ensures { result ≡ is_zero x }
{
    x == 0.0
}

pub(crate) fn less_than(x: f64, y: f64) -> bool
    ensures { result ≡ is_true (number_less_than x y) }
{
    x < y
}

#[tactic(auto, using(crate::proofs::Order::le_is))]
pub(crate) fn less_than_or_equal(x: f64, y: f64) -> bool
    ensures { result ≡ is_false (number_less_than y x) }
{
    x <= y
}

#[tactic(auto, using(crate::proofs::TwosComplement::and_is))]
pub(crate) fn bitwise_and(x: f64, y: f64) -> f64
    ensures { result ≡ number_bitwise_and x y }
{
    f64::from(to_int32(x) & to_int32(y))
}

#[tactic(auto, using(crate::proofs::TwosComplement::xor_is))]
pub(crate) fn bitwise_xor(x: f64, y: f64) -> f64
    ensures { result ≡ number_bitwise_xor x y }
{
    f64::from(to_int32(x) ^ to_int32(y))
}

#[tactic(auto, using(crate::proofs::TwosComplement::or_is))]
pub(crate) fn bitwise_or(x: f64, y: f64) -> f64
    ensures { result ≡ number_bitwise_or x y }
{
    f64::from(to_int32(x) | to_int32(y))
}

#[tactic(auto, using(crate::proofs::TwosComplement::left_is))]
pub(crate) fn left_shift(x: f64, y: f64) -> f64
    ensures { result ≡ number_left_shift x y }
{
    f64::from(to_int32(x).wrapping_shl(to_uint32(y)))
}

#[tactic(auto, using(crate::proofs::TwosComplement::right_is))]
pub(crate) fn signed_right_shift(x: f64, y: f64) -> f64
    ensures { result ≡ number_signed_right_shift x y }
{
    f64::from(to_int32(x).wrapping_shr(to_uint32(y)))
}

#[tactic(auto, using(crate::proofs::TwosComplement::unsigned_is))]
pub(crate) fn unsigned_right_shift(x: f64, y: f64) -> f64
    ensures { result ≡ number_unsigned_right_shift x y }
{
    f64::from(to_uint32(x).wrapping_shr(to_uint32(y)))
}
