// Which bytes are UTF-8.
ghost use Rattle.std.specs.Prelude.{◌≡◌, ◌-◌, IfSome, IsUtf8, Decides, Some, length, slice_index};
ghost use Rattle.text.specs.ClassTests.{sequence_length};
ghost use Rattle.text.specs.Classes.{class_of};
ghost use Rattle.std.specs.Option.{option_map};
ghost use Rattle.text.specs.Sequences.{after_sequence, is_continuation, is_second};

use crate::class::ByteClass;

fn is_continuation(byte: u8) -> bool
    ensures { result ≡ is_continuation byte }
{
    matches!(ByteClass::from(byte), ByteClass::Continuation)
}

fn is_second(lead: u8, byte: u8) -> bool
    ensures { result ≡ is_second lead byte }
{
    match lead {
        0xE0 => matches!(byte, 0xA0..=0xBF),
        0xED => matches!(byte, 0x80..=0x9F),
        0xF0 => matches!(byte, 0x90..=0xBF),
        0xF4 => matches!(byte, 0x80..=0x8F),
        _ => is_continuation(byte),
    }
}

// What stands after the sequence that the bytes begin with, which has the length that its class says.
fn after_sequence(bytes: &[u8]) -> Option<&[u8]>
    ensures value { option_map (λ rest. rest.now) result ≡ after_sequence bytes.now }
    ensures taken { IfSome result (λ rest. sequence_length (class_of (slice_index bytes.now 0)) ≡ Some (length bytes.now - length rest.now)) }
{
    let (lead, rest) = bytes.split_first()?;
    match (ByteClass::from(*lead), rest) {
        (ByteClass::Digit | ByteClass::NameStart | ByteClass::Ascii, _) => Some(rest),
        (ByteClass::Lead2, [second, rest @ ..]) if is_second(*lead, *second) => Some(rest),
        (ByteClass::Lead3, [second, third, rest @ ..])
            if is_second(*lead, *second) && is_continuation(*third) => { Some(rest) }
        (ByteClass::Lead4, [second, third, fourth, rest @ ..])
            if is_second(*lead, *second) && is_continuation(*third) && is_continuation(*fourth) => {
            Some(rest)
        }
        _ => None,
    }
}

// By the table of classes, which the digit host goes by too, and so not std's from_utf8.
pub fn is_utf8(bytes: &[u8]) -> bool
    ensures { Decides result (IsUtf8 bytes.now) }
{
    let mut rest = bytes;
    while !rest.is_empty() {
        let Some(after) = after_sequence(rest) else {
            return false;
        };
        rest = after;
    }
    true
}
