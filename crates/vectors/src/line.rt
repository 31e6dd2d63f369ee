// A line is `OPERATION OPERAND.. = EXPECTED`, its parts separated by one space. A part is
//
//     16 upper-case hex digits           a number, by its 64 bits; NaN is 7FF8000000000000
//     "..."                              a text, by its bytes, 255 at most: printable ASCII other than " and \
//                                        as itself, any other byte as \ and two upper-case hex digits
//     null  undefined  true  false
//     none                               as EXPECTED: the operation must not fold
//
// src/operation.rt has the operations. == and != have a third operand: the number of the text that
// is compared as a number, or none where no text is, or where its number is withheld.
ghost use Rattle.std.specs.Prelude.{◌≡◌, ℕ, ◌+◌, ◌<◌, [], ◌∷◌, ◌++◌, length, IfOk, Some, MatchBool, MatchOption, OnOk, OnSome, ◌≢◌, from_bits, slice_index};
ghost use Rattle.std.specs.Option.{option_map};
ghost use Rattle.vectors.specs.Hex.{number};
ghost use Rattle.vectors.specs.Line.{rest_of};
ghost use Rattle.std.specs.Float.{binary64};

use crate::hex;
use crate::operation::Operation;
use crate::scan::length_before;
use crate::value::{Text, Value};
use crate::vector::{Question, Vector};
use arrayvec::CapacityError;
use ecma::{BinaryOperator, FloatValue, converted_text};

#[derive(Clone, Copy)]
pub struct Malformed;

impl From<CapacityError<u8>> for Malformed {
    fn from(_full: CapacityError<u8>) -> Malformed {
        Malformed
    }
}

// What is left of a line. Each method's clause says what it took from the front of that.
#[derive(Drop)]
pub struct Line<'a> {
    rest: &'a [u8],
}

impl<'a> Line<'a> {
    pub fn new(bytes: &'a [u8]) -> Self
        ensures { rest_of result ≡ bytes.now }
    {
        Line { rest: bytes }
    }

    // Reads the whole line.
    pub fn vector(&mut self) -> Result<Vector, Malformed> {
        let question = self.question()?;
        self.expect(b" =")?;
        let answer = if self.skips(b" none") {
            None
        } else {
            Some(self.value()?)
        };
        if !self.rest.is_empty() {
            return Err(Malformed);
        }
        Ok(Vector { question, answer })
    }

    fn question(&mut self) -> Result<Question, Malformed> {
        let name = self.word()?;
        match name.parse()? {
            Operation::Binary(operator) => self.binary(operator),
            Operation::Unary(operator) => {
                let operand = self.value()?;
                Ok(Question::Unary { operator, operand })
            }
            Operation::Update(operator) => {
                let operand = self.number()?;
                Ok(Question::Update { operator, operand })
            }
            Operation::ToInt32 => Ok(Question::ToInt32(self.number()?)),
            Operation::ToUint32 => Ok(Question::ToUint32(self.number()?)),
            Operation::ToBoolean => Ok(Question::ToBoolean(self.value()?)),
            Operation::SameValue => {
                let left = self.value()?;
                let right = self.value()?;
                Ok(Question::SameValue(left, right))
            }
        }
    }

    fn binary(&mut self, operator: BinaryOperator) -> Result<Question, Malformed> {
        let left = self.value()?;
        let right = self.value()?;
        let text_number = match operator {
            BinaryOperator::Equality | BinaryOperator::Inequality => {
                self.text_number(&left, &right)?
            }
            _ => None,
        };
        Ok(Question::Binary {
            operator,
            left,
            right,
            text_number,
        })
    }

    // A number is given only where the comparison of the two values asks for it.
    fn text_number(&mut self, left: &Value, right: &Value) -> Result<Option<f64>, Malformed> {
        if self.skips(b" none") {
            return Ok(None);
        }
        let number = self.number()?;
        converted_text(left.view(), right.view()).ok_or(Malformed)?;
        Ok(Some(number))
    }

    fn number(&mut self) -> Result<f64, Malformed> {
        let Value::Number(x) = self.value()? else {
            return Err(Malformed);
        };
        Ok(x)
    }

    fn value(&mut self) -> Result<Value, Malformed> {
        self.expect(b" ")?;
        if self.skips(b"\"") {
            return Ok(Value::String(self.text()?));
        }
        match self.word()? {
            "null" => Ok(Value::Null),
            "undefined" => Ok(Value::Undefined),
            "true" => Ok(Value::Boolean(true)),
            "false" => Ok(Value::Boolean(false)),
            digits => Ok(Value::Number(number_of(digits.as_bytes())?)),
        }
    }

    // A text, of which the opening quote is passed.
    fn text(&mut self) -> Result<Text, Malformed> {
        let mut text = Text::new();
        while let Some(byte) = self.byte() {
            match byte {
                b'"' => return Ok(text),
                b'\\' => text.try_push(self.escaped()?)?,
                b' '..=b'~' => text.try_push(byte)?,
                _ => return Err(Malformed),
            }
        }
        Err(Malformed)
    }

    // The byte of two digits, of which the backslash is passed.
    fn escaped(&mut self) -> Result<u8, Malformed>
        ensures len { OnOk result (length (rest_of self.new) + 2 ≡ length (rest_of self.old)) }
        ensures value { IfOk result (λ b. (h : ℕ) × (l : ℕ) × (rest_of self.old ≡ h ∷ l ∷ rest_of self.new) × (number (h ∷ l ∷ []) ≡ Some b)) }
    {
        let high = self.byte().ok_or(Malformed)?;
        let low = self.byte().ok_or(Malformed)?;
        hex::byte(high, low).ok_or(Malformed)
    }

    fn byte(&mut self) -> Option<u8>
        ensures first { MatchOption result (length (rest_of self.old) ≡ 0) (λ b. rest_of self.old ≡ b ∷ rest_of self.new) }
        ensures len { OnSome result (length (rest_of self.new) + 1 ≡ length (rest_of self.old)) }
    {
        let (first, rest) = self.rest.split_first()?;
        self.rest = rest;
        Some(*first)
    }

    // What stands before the next space or the end.
    fn word(&mut self) -> Result<&'a str, Malformed>
        ensures parts { IfOk result (λ w. rest_of self.old ≡ w.now ++ rest_of self.new) }
        ensures whole { IfOk result (λ w. (k : ℕ) → k < length w.now → slice_index w.now k ≢ 32) }
        ensures stops { 0 < length (rest_of self.new) → slice_index (rest_of self.new) 0 ≡ 32 }
    {
        let (word, rest) = self.rest.split_at(length_before(self.rest, b' '));
        self.rest = rest;
        std::str::from_utf8(word).map_err(|_| Malformed)
    }

    fn expect(&mut self, bytes: &[u8]) -> Result<(), Malformed>
        ensures { OnOk result (rest_of self.old ≡ bytes.now ++ rest_of self.new) }
    {
        if self.skips(bytes) {
            Ok(())
        } else {
            Err(Malformed)
        }
    }

    // Passes the bytes if they come next.
    fn skips(&mut self, bytes: &[u8]) -> bool
        ensures { MatchBool result (rest_of self.old ≡ bytes.now ++ rest_of self.new) (rest_of self.new ≡ rest_of self.old) }
    {
        let Some(rest) = self.rest.strip_prefix(bytes) else {
            return false;
        };
        self.rest = rest;
        true
    }
}

// The number with these bits. Of the many patterns of a NaN one is taken, and so no method of std's does it.
fn number_of(digits: &[u8]) -> Result<f64, Malformed>
    ensures len { OnOk result (length digits.now ≡ 16) }
    ensures value { IfOk result (λ x. option_map (from_bits binary64) (number digits.now) ≡ Some x) }
{
    let bits = hex::word(digits).ok_or(Malformed)?;
    let number = std::num::f64_from_bits_with_nan(bits);
    if FloatValue::new(number).bits() == bits {
        Ok(number)
    } else {
        Err(Malformed)
    }
}
