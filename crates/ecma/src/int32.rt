ghost use Rattle.ecma.specs.Integer.{to_int32, to_uint32, truncate};
ghost use Rattle.ecma.specs.Value.{number_of};
ghost use Rattle.std.specs.Prelude.{◌≡◌, ◌-◌, ◌*◌, ◌/◌, ◌%◌, ◌^◌, ◌≤◌, ◌||◌, nat_le, if◌then◌else◌, nat_lt, unsigned_abs};

use crate::float_value::FloatValue;

const LOW_WORD: u64 = 0xffff_ffff;

// An exponent below 1023 leaves no whole part, and one above 1106 only multiples of 2^32; an
// infinity and NaN have 2047.
fn vanishes(exponent: u64) -> bool
    ensures { result ≡ (nat_lt exponent 1023 || nat_lt 1106 exponent) }
{
    !(1023..=1106).contains(&exponent)
}

// The 53 digits moved to where the exponent puts them: the fraction falls off below, and what lies
// above 64 bits there.
fn aligned(digits: u64, exponent: u64) -> u64
    requires { (1023 ≤ exponent) × (exponent ≤ 1106) }
    ensures { result ≡ (if nat_le exponent 1075 then digits / 2 ^ (1075 - exponent) else digits * 2 ^ (exponent - 1075) % 2 ^ 64) }
{
    if exponent <= 1075 {
        digits >> (1075 - exponent)
    } else {
        digits << (exponent - 1075)
    }
}

// The low 32 bits of the whole part, the sign left out.
#[tactic(auto, using(crate::proofs::WholePart::low_word))]
fn magnitude(value: FloatValue) -> u32
    ensures { result ≡ unsigned_abs (truncate (number_of value)) % 2 ^ 32 }
{
    let exponent = value.exponent();
    if vanishes(exponent) {
        return 0;
    }
    let whole = aligned(value.normal_significand(), exponent);
    (whole & LOW_WORD) as u32
}

// The same low word for the number with its sign.
fn with_sign(low: u32, negative: bool) -> u32
    ensures { result ≡ (if negative then (2 ^ 32 - low) % 2 ^ 32 else low) }
{
    if negative { low.wrapping_neg() } else { low }
}

#[tactic(auto, using(crate::proofs::WholePart::uint32_is))]
pub fn to_uint32(x: f64) -> u32
    ensures { result ≡ to_uint32 x }
{
    let value = FloatValue::new(x);
    with_sign(magnitude(value), value.is_negative())
}

#[tactic(auto, using(crate::proofs::TwosComplement::int32_is))]
pub fn to_int32(x: f64) -> i32
    ensures { result ≡ to_int32 x }
{
    to_uint32(x).cast_signed()
}
