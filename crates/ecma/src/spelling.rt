// How JavaScript spells a binary operator.
ghost use Rattle.ecma.specs.Spelling.{spelling};
ghost use Rattle.std.specs.Prelude.{◌≡◌, ◌≢◌, Some, MatchResult};
ghost use Rattle.ecma.specs.declared.operators.BinaryOperator.{BinaryOperator};

use crate::operators::BinaryOperator;
use std::fmt;
use std::str::FromStr;

fn spelling(operator: BinaryOperator) -> &'static str
    ensures { result.now ≡ spelling operator }
{
    match operator {
        BinaryOperator::Addition => "+",
        BinaryOperator::Subtraction => "-",
        BinaryOperator::Multiplication => "*",
        BinaryOperator::Division => "/",
        BinaryOperator::Remainder => "%",
        BinaryOperator::Exponential => "**",
        BinaryOperator::BitwiseOR => "|",
        BinaryOperator::BitwiseAnd => "&",
        BinaryOperator::BitwiseXOR => "^",
        BinaryOperator::ShiftLeft => "<<",
        BinaryOperator::ShiftRight => ">>",
        BinaryOperator::ShiftRightZeroFill => ">>>",
        BinaryOperator::LessThan => "<",
        BinaryOperator::LessEqualThan => "<=",
        BinaryOperator::GreaterThan => ">",
        BinaryOperator::GreaterEqualThan => ">=",
        BinaryOperator::StrictEquality => "===",
        BinaryOperator::StrictInequality => "!==",
        BinaryOperator::Equality => "==",
        BinaryOperator::Inequality => "!=",
        BinaryOperator::In => "in",
        BinaryOperator::Instanceof => "instanceof",
    }
}

impl fmt::Display for BinaryOperator {
    ghost output = { λ o. Some (spelling o) };

    fn fmt<W: fmt::Write>(&self, f: &mut fmt::Formatter<W>) -> fmt::Result {
        f.write_str(spelling(*self))
    }
}

// A text that spells no binary operator.
#[derive(Clone, Copy, PartialEq, Eq, Debug)]
pub struct NoOperator;

impl FromStr for BinaryOperator {
    type Err = NoOperator;

    ghost from_str_gives = { λ text r. MatchResult r (λ o. spelling o ≡ text) (λ _. (o : BinaryOperator) → spelling o ≢ text) };

    fn from_str(text: &str) -> Result<BinaryOperator, NoOperator> {
        match text {
            "+" => Ok(BinaryOperator::Addition),
            "-" => Ok(BinaryOperator::Subtraction),
            "*" => Ok(BinaryOperator::Multiplication),
            "/" => Ok(BinaryOperator::Division),
            "%" => Ok(BinaryOperator::Remainder),
            "**" => Ok(BinaryOperator::Exponential),
            "|" => Ok(BinaryOperator::BitwiseOR),
            "&" => Ok(BinaryOperator::BitwiseAnd),
            "^" => Ok(BinaryOperator::BitwiseXOR),
            "<<" => Ok(BinaryOperator::ShiftLeft),
            ">>" => Ok(BinaryOperator::ShiftRight),
            ">>>" => Ok(BinaryOperator::ShiftRightZeroFill),
            "<" => Ok(BinaryOperator::LessThan),
            "<=" => Ok(BinaryOperator::LessEqualThan),
            ">" => Ok(BinaryOperator::GreaterThan),
            ">=" => Ok(BinaryOperator::GreaterEqualThan),
            "===" => Ok(BinaryOperator::StrictEquality),
            "!==" => Ok(BinaryOperator::StrictInequality),
            "==" => Ok(BinaryOperator::Equality),
            "!=" => Ok(BinaryOperator::Inequality),
            "in" => Ok(BinaryOperator::In),
            "instanceof" => Ok(BinaryOperator::Instanceof),
            _ => Err(NoOperator),
        }
    }
}
