// Truth and equality of values.
ghost use Rattle.ecma.specs.Comparison.{AsksOnly, is_loosely_equal, is_strictly_equal, same_value, to_boolean, converted_text, number_equals, numeric_of};
ghost use Rattle.ecma.specs.Value.{value_of};
ghost use Rattle.std.specs.Option.{option_map};
ghost use Rattle.std.specs.Prelude.{◌≡◌, Decides};

use crate::number::is_zero;
use crate::primitive_value::PrimitiveValue;

pub fn to_boolean(x: PrimitiveValue) -> bool
    ensures { result ≡ to_boolean (value_of x.entry) }
{
    match x {
        PrimitiveValue::Null => false,
        PrimitiveValue::Undefined => false,
        PrimitiveValue::Boolean(b) => b,
        PrimitiveValue::Number(n) => !is_zero(n.value()) && !n.value().is_nan(),
        PrimitiveValue::String(t) => !t.is_empty(),
    }
}

// Whether two values are one: the zeros differ, and NaN is itself.
#[tactic(auto, using(crate::proofs::Sameness::sameness))]
pub fn same_value(x: PrimitiveValue, y: PrimitiveValue) -> bool
    ensures value { result ≡ same_value (value_of x.entry) (value_of y.entry) }
    ensures decides { Decides result (value_of x.entry ≡ value_of y.entry) }
{
    x == y
}

pub fn is_strictly_equal(x: PrimitiveValue, y: PrimitiveValue) -> bool
    ensures { result ≡ is_strictly_equal (value_of x.entry) (value_of y.entry) }
{
    match (x, y) {
        (PrimitiveValue::Number(a), PrimitiveValue::Number(b)) => a.value() == b.value(),
        _ => x == y,
    }
}

// The number by which a Boolean or a Number is compared with `==`.
#[tactic(auto, using(crate::proofs::LooseEquality::number_of_bool))]
fn numeric(x: PrimitiveValue) -> Option<f64>
    ensures { result ≡ numeric_of (value_of x.entry) }
{
    match x {
        PrimitiveValue::Boolean(b) => Some(f64::from(b)),
        PrimitiveValue::Number(n) => Some(n.value()),
        PrimitiveValue::Null | PrimitiveValue::Undefined | PrimitiveValue::String(_) => None,
    }
}

// Whether x == y, for a number x. `text_number` is y's, if y is a text whose number is known.
fn number_equals(x: f64, y: PrimitiveValue, text_number: Option<f64>) -> Option<bool>
    ensures { result ≡ number_equals (λ _. text_number) x (value_of y.entry) }
{
    let number = match y {
        PrimitiveValue::String(_) => text_number?,
        _ => match numeric(y) {
            Some(n) => n,
            None => return Some(false),
        },
    };
    Some(x == number)
}

// Whether x == y. `text_number` is the number of the text that `converted_text` names, where it is
// known: without it there is no answer, if one is needed.
pub fn is_loosely_equal(
    x: PrimitiveValue,
    y: PrimitiveValue,
    text_number: Option<f64>,
) -> Option<bool>
    ensures { result ≡ is_loosely_equal (λ _. text_number) (value_of x.entry) (value_of y.entry) }
{
    if let Some(n) = numeric(x) {
        return number_equals(n, y, text_number);
    }
    if let Some(n) = numeric(y) {
        return number_equals(n, x, text_number);
    }
    match (x, y) {
        (PrimitiveValue::String(_), _) | (_, PrimitiveValue::String(_)) => {
            Some(is_strictly_equal(x, y))
        }
        _ => Some(true),
    }
}

// The text whose number the comparison x == y asks for, if it asks for one.
pub fn converted_text<'a>(x: PrimitiveValue<'a>, y: PrimitiveValue<'a>) -> Option<&'a [u8]>
    ensures text { option_map (λ t. t.now) result ≡ converted_text (value_of x.entry) (value_of y.entry) }
    ensures enough { AsksOnly (value_of x.entry) (value_of y.entry) (option_map (λ t. t.now) result) }
{
    match (x, y) {
        (PrimitiveValue::String(t), _) if numeric(y).is_some() => Some(t),
        (_, PrimitiveValue::String(t)) if numeric(x).is_some() => Some(t),
        _ => None,
    }
}
