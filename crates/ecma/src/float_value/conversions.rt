ghost use Rattle.ecma.specs.Value.{number_of};
ghost use Rattle.std.specs.Float.{binary64};
ghost use Rattle.std.specs.Prelude.{◌≡◌, to_bits};

use super::FloatValue;

// Under the Rust's names. The Rust has From beside these, which says the same once more.
impl FloatValue {
    #[tactic(auto, using(crate::proofs::Stored::as_stored))]
    pub fn new(value: f64) -> Self
        ensures value { number_of result ≡ value }
        ensures bits { result.bits ≡ to_bits binary64 value }
    {
        FloatValue {
            bits: std::num::f64_to_bits_with_nan(value),
        }
    }

    pub fn value(self) -> f64
        ensures { result ≡ number_of self }
    {
        std::num::f64_from_bits_with_nan(self.bits)
    }

    // The stored bits: those of the Number, and 7FF8000000000000 for NaN.
    pub fn bits(self) -> u64
        ensures { result ≡ self.bits }
    {
        self.bits
    }
}
