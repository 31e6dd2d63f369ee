ghost use Rattle.std.specs.Prelude.{◌≡◌, ℕ, Bool, List, Some, Option, Float};
ghost use Rattle.std.specs.Option.{option_map};
ghost use Rattle.host.specs.Answers.{Bounded};

use crate::number_text::NumberText;

// What converts numbers and texts into each other, and judges names. Its meaning is three maps that
// it holds: it answers exactly what they have, and is silent outside them. A question changes nothing.
pub trait Host {
    ghost texts: { Self → Float → Option (List ℕ) };

    ghost numbers: { Self → List ℕ → Option Float };

    ghost names: { Self → List ℕ → Option Bool };

    fn number_text(&self, number: f64) -> Option<NumberText>
        ensures { option_map (λ t. t.bytes) result ≡ texts self.now number };

    fn text_number(&self, text: &[u8]) -> Option<f64>
        ensures { result ≡ numbers self.now text.now };

    // Whether the text is a valid name.
    fn is_name(&self, text: &[u8]) -> Option<bool>
        ensures { result ≡ names self.now text.now };

    ghost bounded: { (h : Self) (x : Float) (t : List ℕ) → texts h x ≡ Some t → Bounded t };
}
