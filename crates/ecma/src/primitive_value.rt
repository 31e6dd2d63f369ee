// A value that folds. A String is the bytes of its UTF-8 text, which stand elsewhere. One generic enum with `hir`'s was
// tried: with the text as its parameter the borrow checker covers none of these functions; with the number too, `==` on it
// asks for facts about lifetimes that only the prover's own names could state.
ghost use Rattle.ecma.specs.Value.{number, value_of};
ghost use Rattle.ecma.specs.declared.primitive_value.PrimitiveValue.TheVariants.{Boolean};
ghost use Rattle.std.specs.Prelude.{◌≡◌};

use crate::float_value::FloatValue;

#[derive(Clone, Copy, PartialEq, Eq, Debug)]
pub enum PrimitiveValue<'a> {
    Null,
    Undefined,
    Boolean(bool),
    Number(FloatValue),
    String(&'a [u8]),
}

impl From<bool> for PrimitiveValue<'_> {
    ghost from_gives = { λ b r. r ≡ Boolean b };

    fn from(b: bool) -> Self {
        PrimitiveValue::Boolean(b)
    }
}

impl From<f64> for PrimitiveValue<'_> {
    ghost from_gives = { λ x r. value_of r ≡ number x };

    fn from(x: f64) -> Self {
        PrimitiveValue::Number(FloatValue::new(x))
    }
}
