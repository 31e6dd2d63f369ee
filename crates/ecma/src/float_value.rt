ghost use Rattle.std.specs.Float.{binary64};
ghost use Rattle.std.specs.Prelude.{◌≡◌, ◌^◌, ◌<◌, true, from_bits, is_nan};

mod conversions;
mod fields;

// A Number by its 64 bits. A NaN has one pattern here, the quiet one with a clear sign and no
// payload, so that equal bits are the same Number. `range` is what the type of the bits says already: a
// proof that has the value alone, with no code that reads it, does not see that type.
#[derive(Clone, Copy, PartialEq, Eq, Debug)]
pub struct FloatValue {
    bits: u64,
    ghost range: { bits < 2 ^ 64 },
    ghost canonical: { is_nan (from_bits binary64 bits) ≡ true → bits ≡ 0x7ff8_0000_0000_0000 },
}
