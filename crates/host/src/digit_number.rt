// The number of a text: of the empty one, and of an optional sign with 1 to 15 digits or Infinity.
ghost use Rattle.std.specs.Prelude.{◌≡◌, ◌-◌, true, false, ◌&&◌, length, if◌then◌else◌, Some, None, nat_le};
ghost use Rattle.host.specs.DigitHost.{signed_number, text_number, unsigned_text};
ghost use Rattle.std.specs.List.{list_all};
ghost use Rattle.std.specs.Str.Parse.{digits_value};
ghost use Rattle.text.specs.Classes.{is_digit};

use text::ByteClass;

// So many digits write a number that a float holds.
const MOST_DIGITS: usize = 15;

#[tactic(auto, using(crate::proofs::FloatLiterals::zero_bits))]
pub fn text_number(text: &[u8]) -> Option<f64>
    ensures { result ≡ text_number text.now }
{
    match text {
        [] => Some(0.0),
        [b'-', rest @ ..] => negative(rest),
        [b'+', rest @ ..] => unsigned(rest),
        _ => unsigned(text),
    }
}

// The number of what stands after a minus.
#[tactic(auto, using(crate::proofs::Signs::negated))]
fn negative(text: &[u8]) -> Option<f64>
    ensures { result ≡ unsigned_text true text.now }
{
    unsigned(text).map(|number| -number)
}

// The number of a text without a sign.
#[tactic(auto, using(crate::proofs::FloatLiterals::infinity_bits))]
fn unsigned(text: &[u8]) -> Option<f64>
    ensures { result ≡ unsigned_text false text.now }
{
    if text == b"Infinity".as_slice() {
        return Some(f64::INFINITY);
    }
    short_number(text)
}

// The number that 1 to 15 digits write. By the table of classes, and not by parse, which would take a sign here.
#[tactic(auto, using(crate::proofs::DigitValue::below, crate::proofs::DigitValue::one_more))]
fn short_number(text: &[u8]) -> Option<f64>
    ensures { result ≡ (if list_all is_digit text.now && (nat_le 1 (length text.now) && nat_le (length text.now) 15) then Some (signed_number false (digits_value 10 text.now)) else None) }
{
    if text.is_empty() || text.len() > MOST_DIGITS {
        return None;
    }
    let mut value: u64 = 0;
    for byte in text {
        value = value * 10 + digit(*byte)?;
    }
    Some(value as f64)
}

#[tactic(auto, using(crate::proofs::ByClass::of_digit))]
fn digit(byte: u8) -> Option<u64>
    ensures { result ≡ (if is_digit byte then Some (byte - 48) else None) }
{
    ByteClass::from(byte)
        .is_digit()
        .then(|| u64::from(byte - b'0'))
}
