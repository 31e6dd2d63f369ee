// The text of a number: NaN, the infinities, and the whole numbers up to 2 ^ 53 - 1 either way.
ghost use Rattle.std.specs.Prelude.{◌≡◌, ◌^◌, ◌<◌, true, if◌then◌else◌, codes};
ghost use Rattle.host.specs.DigitHost.{number_text, whole_text};
ghost use Rattle.std.specs.Fmt.{signed_decimal};
ghost use Rattle.std.specs.Option.{option_map};
ghost use Rattle.std.specs.Float.{float_is_finite};

use crate::number_text::{NumberText, owned};
use itoa::Buffer;
use std::num::saturating_f64_to_u64;

// 2 ^ 53 - 1: up to it every whole number is a float, and no other rounds to it.
const MAX_SAFE_INTEGER: u64 = 9_007_199_254_740_991;

#[tactic(auto, using(crate::proofs::NumberKinds::finite_else, crate::proofs::NumberKinds::text_of_nan, crate::proofs::NumberKinds::text_of_infinite))]
pub fn number_text(number: f64) -> Option<NumberText>
    ensures { option_map (λ t. t.bytes) result ≡ number_text number }
{
    if number.is_nan() {
        return Some(owned("NaN"));
    }
    if number.is_infinite() {
        return Some(owned(infinity_text(number.is_sign_negative())));
    }
    finite_text(number)
}

// Apart, so that the others do not pay for its buffer.
#[inline(never)]
fn finite_text(number: f64) -> Option<NumberText>
    requires { float_is_finite number ≡ true }
    ensures { option_map (λ t. t.bytes) result ≡ number_text number }
{
    let whole = whole_number(number)?;
    Some(owned(Buffer::new().format(whole)))
}

fn infinity_text(minus: bool) -> &'static str
    ensures { result.now ≡ (if minus then codes "-Infinity" else codes "Infinity") }
{
    if minus { "-Infinity" } else { "Infinity" }
}

// The whole number that a finite number is, if it has a text.
#[tactic(auto, using(crate::proofs::NumberKinds::not_nan, crate::proofs::WholeNumber::text_by_size, crate::proofs::WholeNumber::no_text_from))]
fn whole_number(number: f64) -> Option<i64>
    requires { float_is_finite number ≡ true }
    ensures { option_map signed_decimal result ≡ number_text number }
{
    let size = number.abs();
    let whole = saturating_f64_to_u64(size);
    if whole > MAX_SAFE_INTEGER {
        return None;
    }
    (whole as f64 == size).then(|| with_sign(whole, number.is_sign_negative()))
}

// A zero has no sign.
fn with_sign(size: u64, minus: bool) -> i64
    requires { size < 2 ^ 53 }
    ensures { signed_decimal result ≡ whole_text minus size }
{
    let size = size as i64;
    if minus { -size } else { size }
}
