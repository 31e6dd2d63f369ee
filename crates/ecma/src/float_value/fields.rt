// The parts of a Number's bits, cut out by shifts and masks: a rule of the project.
ghost use Rattle.std.specs.Prelude.{◌≡◌, ◌+◌, ◌/◌, ◌%◌, ◌^◌, nat_le};

use super::FloatValue;

const EXPONENT: u64 = 0x7ff;

const FRACTION: u64 = 0x000f_ffff_ffff_ffff;

const HIDDEN: u64 = 0x0010_0000_0000_0000;

impl FloatValue {
    // The top bit is the sign.
    pub(crate) fn is_negative(self) -> bool
        ensures { result ≡ nat_le (2 ^ 63) self.bits }
    {
        self.bits >> 63 != 0
    }

    pub(crate) fn exponent(self) -> u64
        ensures { result ≡ self.bits % 2 ^ 63 / 2 ^ 52 }
    {
        (self.bits >> 52) & EXPONENT
    }

    pub(crate) fn fraction(self) -> u64
        ensures { result ≡ self.bits % 2 ^ 52 }
    {
        self.bits & FRACTION
    }

    // Of a Number whose exponent is not 0: the fraction below a leading one, which is not stored.
    pub(crate) fn normal_significand(self) -> u64
        ensures { result ≡ 2 ^ 52 + self.bits % 2 ^ 52 }
    {
        self.fraction() | HIDDEN
    }
}
