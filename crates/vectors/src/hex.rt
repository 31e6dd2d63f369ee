// Numbers in hexadecimal, with upper-case digits.
ghost use Rattle.std.specs.Prelude.{◌≡◌, [], ◌∷◌, ◌≤◌, length, if◌then◌else◌, None, nat_eq};
ghost use Rattle.vectors.specs.Hex.{digit_of, number};

fn digit(byte: u8) -> Option<u8>
    ensures { result ≡ digit_of byte }
{
    match byte {
        b'0'..=b'9' => Some(byte - b'0'),
        b'A'..=b'F' => Some(byte - b'A' + 10),
        _ => None,
    }
}

pub fn byte(high: u8, low: u8) -> Option<u8>
    ensures { result ≡ number (high ∷ low ∷ []) }
{
    u8::try_from(number(&[high, low])?).ok()
}

// The number of sixteen digits.
pub fn word(digits: &[u8]) -> Option<u64>
    ensures { result ≡ (if nat_eq (length digits.now) 16 then number digits.now else None) }
{
    if digits.len() != 16 {
        return None;
    }
    number(digits)
}

// The number of some digits. Not by from_str_radix, which takes lower case and a sign.
fn number(digits: &[u8]) -> Option<u64>
    requires { length digits.now ≤ 16 }
    ensures { result ≡ number digits.now }
{
    let mut number = 0;
    for byte in digits {
        number = number * 16 + u64::from(digit(*byte)?);
    }
    Some(number)
}
