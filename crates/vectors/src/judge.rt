// Whether a line is right: whether the operations of `ecma` give what it says.
ghost use Rattle.ecma.specs.Operators.{binary_fold};
ghost use Rattle.ecma.specs.Value.{if_string, string, value_of};
ghost use Rattle.std.specs.Option.{option_map};
ghost use Rattle.std.specs.Prelude.{◌≡◌, [], ◌++◌, Some, Decides};
ghost use Rattle.vectors.specs.Answers.{answer_to};
ghost use Rattle.vectors.specs.Value.{meaning_of};

use crate::line::{Line, Malformed};
use crate::value::Value;
use crate::vector::{Question, Vector};
use ecma::{
    BinaryOperator, Folded, PrimitiveValue, evaluate_binary_op, evaluate_unary_op,
    evaluate_update_op, same_value, to_boolean, to_int32, to_uint32,
};

// Why a line is not right.
#[derive(Clone, Copy, PartialEq, Eq, Debug, thiserror::Error)]
pub enum Flaw {
    #[error("malformed")]
    Malformed,
    #[error("wrong")]
    Wrong,
}

// By hand, since a derived one would put the error into the case.
impl From<Malformed> for Flaw {
    fn from(_malformed: Malformed) -> Flaw {
        Flaw::Malformed
    }
}

pub fn judge(line: &[u8]) -> Result<(), Flaw> {
    let mut line = Line::new(line);
    let vector = line.vector()?;
    if vector.is_right() {
        Ok(())
    } else {
        Err(Flaw::Wrong)
    }
}

impl Vector {
    fn is_right(&self) -> bool
        ensures { Decides result (answer_to self.now.question ≡ option_map meaning_of self.now.answer) }
    {
        let expected = viewed(&self.answer);
        match &self.question {
            Question::Binary {
                operator,
                left,
                right,
                text_number,
            } => folds_to(*operator, left.view(), right.view(), *text_number, expected),
            Question::Unary { operator, operand } => {
                is_same(evaluate_unary_op(*operator, operand.view()), expected)
            }
            Question::Update { operator, operand } => {
                is_same(
                    Some(evaluate_update_op(*operator, *operand).into()),
                    expected,
                )
            }
            Question::ToInt32(x) => is_same(Some(f64::from(to_int32(*x)).into()), expected),
            Question::ToUint32(x) => is_same(Some(f64::from(to_uint32(*x)).into()), expected),
            Question::ToBoolean(x) => is_same(Some(to_boolean(x.view()).into()), expected),
            Question::SameValue(x, y) => is_same(
                Some(same_value(x.view(), y.view()).into()),
                expected,
            ),
        }
    }
}

fn viewed(answer: &Option<Value>) -> Option<PrimitiveValue<'_>>
    ensures { option_map value_of result ≡ option_map meaning_of answer.now }
{
    answer.as_ref().map(Value::view)
}

fn folds_to(
    operator: BinaryOperator,
    left: PrimitiveValue,
    right: PrimitiveValue,
    text_number: Option<f64>,
    expected: Option<PrimitiveValue>,
) -> bool
    ensures { Decides result (binary_fold (λ _. text_number) operator (value_of left.entry) (value_of right.entry) ≡ option_map value_of expected.entry) }
{
    match evaluate_binary_op(operator, left, right, text_number) {
        Some(Folded::Join) => is_text(bytes_of(left), bytes_of(right), expected),
        Some(folded) => is_same(folded.value(), expected),
        None => expected.is_none(),
    }
}

// The bytes of a text, and none of another value.
fn bytes_of<'a>(value: PrimitiveValue<'a>) -> &'a [u8]
    ensures { result.now ≡ if_string (λ t. t) [] (value_of value.entry) }
{
    match value {
        PrimitiveValue::String(bytes) => bytes,
        _ => b"",
    }
}

// Whether the two parts make the text that is expected.
fn is_text(front: &[u8], back: &[u8], expected: Option<PrimitiveValue>) -> bool
    ensures { Decides result (Some (string (front.now ++ back.now)) ≡ option_map value_of expected.entry) }
{
    matches!(expected, Some(PrimitiveValue::String(whole)) if is_join(front, back, whole))
}

fn is_join(front: &[u8], back: &[u8], whole: &[u8]) -> bool
    ensures { Decides result (front.now ++ back.now ≡ whole.now) }
{
    whole.strip_prefix(front) == Some(back)
}

fn is_same(found: Option<PrimitiveValue>, expected: Option<PrimitiveValue>) -> bool
    ensures { Decides result (option_map value_of found.entry ≡ option_map value_of expected.entry) }
{
    found == expected
}

#[cfg(test)]
mod tests {
    use super::*;

    #[test]
    fn right_lines(rt: HostRuntime) {
        assert_eq!(rt; judge(b"=== \"\\FF \\22\" \"\\FF \\22\" = true"), Ok(()));
        assert_eq!(rt; judge(b"== \"1\" true 3FF0000000000000 = true"), Ok(()));
        assert_eq!(rt; judge(b"== \"1\" true none = none"), Ok(()));
        assert_eq!(rt;
            judge(b"% BFF0000000000000 3FF0000000000000 = 8000000000000000"),
            Ok(())
        );
    }

    #[test]
    fn malformed_lines(rt: HostRuntime) {
        let malformed = Err(Flaw::Malformed);
        assert_eq!(rt; judge(b"not true"), malformed);
        assert_eq!(rt; judge(b"not true = false "), malformed);
        assert_eq!(rt; judge(b"not \"\\F\" = false"), malformed);
        assert_eq!(rt;
            judge(b"neg 7ff8000000000000 = 7FF8000000000000"),
            malformed
        );
        assert_eq!(rt;
            judge(b"neg FFF8000000000000 = 7FF8000000000000"),
            malformed
        );
        assert_eq!(rt; judge(b"== null null 0000000000000000 = true"), malformed);
    }
}
