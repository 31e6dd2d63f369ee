ghost use Rattle.host.specs.DigitHost.{is_name, number_text, text_number};
ghost use Rattle.host.specs.ShortTexts.{short_text};

use crate::host::Host;
use crate::number_text::NumberText;
use crate::{digit_name, digit_number, digit_text};

// Knows the whole numbers up to 2 ^ 53 - 1, NaN and the infinities, texts of few digits, and names
// in ASCII. It is silent on the rest.
#[derive(Clone, Copy)]
pub struct DigitHost;

impl Host for DigitHost {
    ghost texts = { λ _ x. number_text x };

    ghost numbers = { λ _ t. text_number t };

    ghost names = { λ _ t. is_name t };

    ghost bounded = { λ h x t e. short_text x t e };

    fn number_text(&self, number: f64) -> Option<NumberText> {
        digit_text::number_text(number)
    }

    fn text_number(&self, text: &[u8]) -> Option<f64> {
        digit_number::text_number(text)
    }

    fn is_name(&self, text: &[u8]) -> Option<bool> {
        digit_name::is_name(text)
    }
}
