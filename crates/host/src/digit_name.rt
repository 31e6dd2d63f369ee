// Names: an IdentifierName in ASCII that is no reserved word.
ghost use Rattle.host.specs.DigitHost.{is_identifier_name, is_name, is_reserved};
ghost use Rattle.std.specs.List.{list_all, list_any};
ghost use Rattle.std.specs.Str.{bytes_eq};
ghost use Rattle.std.specs.Prelude.{◌≡◌, ◌||◌};
ghost use Rattle.text.specs.Classes.{is_digit, is_name_start};

use text::ByteClass;

const RESERVED: &[&[u8]] = &[
    b"await",
    b"break",
    b"case",
    b"catch",
    b"class",
    b"const",
    b"continue",
    b"debugger",
    b"default",
    b"delete",
    b"do",
    b"else",
    b"enum",
    b"export",
    b"extends",
    b"false",
    b"finally",
    b"for",
    b"function",
    b"if",
    b"import",
    b"in",
    b"instanceof",
    b"new",
    b"null",
    b"return",
    b"super",
    b"switch",
    b"this",
    b"throw",
    b"true",
    b"try",
    b"typeof",
    b"var",
    b"void",
    b"while",
    b"with",
    b"yield",
];

// Whether the text is a valid name, where it is ASCII.
#[tactic(auto, using(crate::proofs::AsciiTexts::ascii, crate::proofs::AsciiTexts::not_ascii))]
pub fn is_name(text: &[u8]) -> Option<bool>
    ensures { result ≡ is_name text.now }
{
    text.is_ascii()
        .then(|| is_identifier_name(text) && !is_reserved(text))
}

fn is_identifier_name(text: &[u8]) -> bool
    ensures { result ≡ is_identifier_name text.now }
{
    let [first, rest @ ..] = text else {
        return false;
    };
    ByteClass::from(*first).is_name_start() && are_name_parts(rest)
}

fn are_name_parts(text: &[u8]) -> bool
    ensures { result ≡ list_all (λ c. is_name_start c || is_digit c) text.now }
{
    text.iter().all(|byte| is_name_part(*byte))
}

#[tactic(auto, using(crate::proofs::ByClass::of_part))]
fn is_name_part(byte: u8) -> bool
    ensures { result ≡ (is_name_start byte || is_digit byte) }
{
    ByteClass::from(byte).is_name_part()
}

fn is_reserved(text: &[u8]) -> bool
    ensures { result ≡ is_reserved text.now }
{
    is_among(text, RESERVED)
}

// By `any`, since `contains` compares the words in more steps.
fn is_among(text: &[u8], words: &[&[u8]]) -> bool
    ensures { result ≡ list_any (λ w. bytes_eq w.now text.now) words.now }
{
    words.iter().any(|word| *word == text)
}
