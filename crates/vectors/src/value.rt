ghost use Rattle.ecma.specs.Value.{value_of};
ghost use Rattle.vectors.specs.Value.{meaning_of};
ghost use Rattle.std.specs.Prelude.{◌≡◌};

use arrayvec::ArrayVec;
use ecma::PrimitiveValue;

// The bytes of a text, which need not be UTF-8, as many as a line may write.
pub type Text = ArrayVec<u8, 255>;

// A primitive value that keeps its text. Not one enum with ecma's and a parameter for the text: the borrow checker does
// not cover one that holds a FloatValue and, by the parameter, a reference.
#[derive(Drop)]
pub enum Value {
    Null,
    Undefined,
    Boolean(bool),
    Number(f64),
    String(Text),
}

impl Value {
    // A borrow, as `as_str` is, and no From.
    pub fn view(&self) -> PrimitiveValue<'_>
        ensures { value_of result ≡ meaning_of self.now }
    {
        match self {
            Value::Null => PrimitiveValue::Null,
            Value::Undefined => PrimitiveValue::Undefined,
            Value::Boolean(b) => PrimitiveValue::from(*b),
            Value::Number(x) => PrimitiveValue::from(*x),
            Value::String(text) => PrimitiveValue::String(text.as_slice()),
        }
    }
}
