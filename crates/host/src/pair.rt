ghost use Rattle.std.specs.Option.{option_or};
ghost use Rattle.host.specs.Either.{either};
ghost use Rattle.host.specs.Answers.{Bounded};

use crate::host::Host;
use crate::number_text::NumberText;

// Asks the first host and, where that is silent, the second: question by question.
pub struct PairHost<X, Y> {
    pub first: X,
    pub second: Y,
}

impl<X: Host, Y: Host> Host for PairHost<X, Y> {
    ghost texts = { λ p n. option_or (X.Host.texts p.first n) (Y.Host.texts p.second n) };

    ghost numbers = { λ p t. option_or (X.Host.numbers p.first t) (Y.Host.numbers p.second t) };

    ghost names = { λ p t. option_or (X.Host.names p.first t) (Y.Host.names p.second t) };

    ghost bounded = { λ h x t e. either Bounded (X.Host.texts h.first x) (Y.Host.texts h.second x) t (X.Host.bounded h.first x t) (Y.Host.bounded h.second x t) e };

    fn number_text(&self, number: f64) -> Option<NumberText> {
        self.first
            .number_text(number)
            .or_else(|| self.second.number_text(number))
    }

    fn text_number(&self, text: &[u8]) -> Option<f64> {
        self.first
            .text_number(text)
            .or_else(|| self.second.text_number(text))
    }

    fn is_name(&self, text: &[u8]) -> Option<bool> {
        self.first
            .is_name(text)
            .or_else(|| self.second.is_name(text))
    }
}
