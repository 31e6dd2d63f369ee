// The remainder of two Numbers, worked out in whole numbers: f64's own `%` calls the C library's fmod,
// of which not every machine has the version that the kit links. Each finite Number is a whole multiple
// of 2^-1074, the smallest one.
ghost use Rattle.ecma.specs.Number.{is_zero, number_remainder};
ghost use Rattle.std.specs.Float.{binary64, float_is_finite};
ghost use Rattle.std.specs.Prelude.{◌≡◌, ◌+◌, ◌-◌, ◌*◌, ◌/◌, ◌%◌, ◌^◌, ◌<◌, ◌≤◌, ◌==◌, true, false, from_bits, nat_lt, nat_le, if◌then◌else◌};

use crate::float_value::FloatValue;
use crate::number::is_zero;

// digits * 2^shift multiples of 2^-1074.
#[derive(Clone, Copy)]
struct Magnitude {
    digits: u64,
    shift: u64,
    ghost fits: { digits < 2 ^ 53 },
    ghost reach: { shift ≤ 2046 },
}

impl Magnitude {
    // Of the Number, the sign left out.
    fn of(value: FloatValue) -> Magnitude
        ensures digits { result.digits ≡ (if value.bits % 2 ^ 63 / 2 ^ 52 == 0 then value.bits % 2 ^ 52 else 2 ^ 52 + value.bits % 2 ^ 52) }
        ensures shift { result.shift ≡ value.bits % 2 ^ 63 / 2 ^ 52 - 1 }
    {
        let exponent = value.exponent();
        if exponent == 0 {
            Magnitude {
                digits: value.fraction(),
                shift: 0,
            }
        } else {
            Magnitude {
                digits: value.normal_significand(),
                shift: exponent - 1,
            }
        }
    }

    // The bits of 2^shift multiples of 2^-1074.
    #[tactic(auto, using(std::proofs::lemmas::Nat::pow_below))]
    fn power_bits(self) -> u64
        ensures value { result ≡ (if nat_lt self.shift 52 then 2 ^ self.shift else (self.shift - 51) * 2 ^ 52) }
        ensures below { result < 2 ^ 63 }
    {
        if self.shift < 52 {
            1 << self.shift
        } else {
            (self.shift - 51) << 52
        }
    }

    // 2^shift multiples of 2^-1074, with a sign.
    fn power(self, negative: bool) -> f64
        ensures { result ≡ from_bits binary64 ((if negative then 2 ^ 63 else 0) + (if nat_lt self.shift 52 then 2 ^ self.shift else (self.shift - 51) * 2 ^ 52)) }
    {
        std::num::f64_from_bits_with_nan((u64::from(negative) << 63) + self.power_bits())
    }
}

// left * 2^times modulo the divisor.
#[tactic(auto, using(crate::proofs::LeftOver::once_more))]
fn doubled(left: u64, divisor: u64, times: u64) -> u64
    requires below { left < divisor }
    requires fits { divisor < 2 ^ 53 }
    ensures value { result ≡ left * 2 ^ times % divisor }
    ensures below { result < divisor }
{
    let mut rest = left;
    for _turn in 0..times {
        rest = rest * 2 % divisor;
    }
    rest
}

// The dividend modulo the divisor. A divisor with the larger shift is the larger number.
#[tactic(auto, using(crate::proofs::LeftOver::by_shifts))]
fn left_over(dividend: Magnitude, divisor: Magnitude) -> Magnitude
    requires some { 0 < divisor.digits }
    requires leading { 0 < divisor.shift → 2 ^ 52 ≤ divisor.digits }
    ensures { result.digits * 2 ^ result.shift ≡ dividend.digits * 2 ^ dividend.shift % (divisor.digits * 2 ^ divisor.shift) }
{
    if dividend.shift < divisor.shift {
        return dividend;
    }
    let times = dividend.shift - divisor.shift;
    let digits = doubled(dividend.digits % divisor.digits, divisor.digits, times);
    Magnitude {
        digits,
        shift: divisor.shift,
    }
}

fn finite_remainder(n: f64, d: f64) -> f64
    requires dividend { float_is_finite n ≡ true }
    requires divisor { float_is_finite d ≡ true }
    requires some { is_zero d ≡ false }
    ensures { result ≡ number_remainder n d }
{
    let dividend = FloatValue::new(n);
    let divisor = Magnitude::of(FloatValue::new(d));
    let left = left_over(Magnitude::of(dividend), divisor);
    left.digits as f64 * left.power(dividend.is_negative())
}

#[tactic(auto, using(crate::proofs::ExactRemainder::at_once))]
pub(crate) fn remainder(n: f64, d: f64) -> f64
    ensures { result ≡ number_remainder n d }
{
    if !n.is_finite() || d.is_nan() || is_zero(d) {
        return f64::NAN;
    }
    if !d.is_finite() {
        return n;
    }
    finite_remainder(n, d)
}
