// A host that answers from lists.
ghost use Rattle.std.specs.Prelude.{◌≡◌, ◌&&◌};
ghost use Rattle.host.specs.Answers.{Bounded};
ghost use Rattle.ecma.specs.Number.{number_same_value};
ghost use Rattle.host.specs.ListHost.{can_be_number_text, listed_name, listed_number, listed_text};
ghost use Rattle.host.specs.ListedTexts.{listed_bounded};
ghost use Rattle.std.specs.Option.{option_map};
ghost use Rattle.std.specs.Str.{is_utf8};

use crate::host::Host;
use crate::number_text::{LONGEST, NumberText, owned};
use ecma::same_value;
use text::is_utf8;

// The text of a number. The entries' types differ by their fields' names, which say what each list holds.
#[derive(Clone, Copy)]
pub struct TextEntry<'a> {
    pub number: f64,
    pub text: &'a [u8],
}

// The number of a text.
#[derive(Clone, Copy)]
pub struct NumberEntry<'a> {
    pub text: &'a [u8],
    pub number: f64,
}

// Whether a text is a valid name.
#[derive(Clone, Copy)]
pub struct NameEntry<'a> {
    pub text: &'a [u8],
    pub valid: bool,
}

// Answers by the first entry that matches, and is silent where none does.
#[derive(Clone, Copy)]
pub struct ListHost<'a> {
    pub texts: &'a [TextEntry<'a>],
    pub numbers: &'a [NumberEntry<'a>],
    pub names: &'a [NameEntry<'a>],
}

impl Host for ListHost<'_> {
    ghost texts = { λ h x. listed_text h.texts.now x };

    ghost numbers = { λ h t. listed_number h.numbers.now t };

    ghost names = { λ h t. listed_name h.names.now t };

    ghost bounded = { λ h x t e. listed_bounded h.texts.now x t e };

    #[tactic(auto, using(crate::specs::ListedTexts::listed_bounded))]
    fn number_text(&self, number: f64) -> Option<NumberText> {
        let text = find_text(self.texts, number)?;
        Some(as_text(text))
    }

    fn text_number(&self, text: &[u8]) -> Option<f64> {
        find_number(self.numbers, text)
    }

    fn is_name(&self, text: &[u8]) -> Option<bool> {
        find_name(self.names, text)
    }
}

// Bytes that can be the text of a number, as such a text. That they are UTF-8 was found as their entry was.
fn as_text(bytes: &[u8]) -> NumberText
    requires { Bounded bytes.now }
    ensures { result.bytes ≡ bytes.now }
{
    owned(unsafe { std::str::from_utf8_unchecked(bytes) })
}

fn find_text<'a>(entries: &[TextEntry<'a>], number: f64) -> Option<&'a [u8]>
    ensures { option_map (λ t. t.now) result ≡ listed_text entries.now number }
{
    entries
        .iter()
        .find(|entry| has_text(entry, number))
        .map(|entry| entry.text)
}

fn find_number(entries: &[NumberEntry], text: &[u8]) -> Option<f64>
    ensures { result ≡ listed_number entries.now text.now }
{
    entries
        .iter()
        .find(|entry| entry.text == text)
        .map(|entry| entry.number)
}

fn find_name(entries: &[NameEntry], text: &[u8]) -> Option<bool>
    ensures { result ≡ listed_name entries.now text.now }
{
    entries
        .iter()
        .find(|entry| entry.text == text)
        .map(|entry| entry.valid)
}

// Whether the entry has a text for the number.
fn has_text(entry: &TextEntry, number: f64) -> bool
    ensures { result ≡ (number_same_value number entry.now.number && can_be_number_text entry.now.text.now) }
{
    same_number(number, entry.number) && is_text(entry.text)
}

fn same_number(a: f64, b: f64) -> bool
    ensures { result ≡ number_same_value a b }
{
    same_value(a.into(), b.into())
}

// Whether bytes can be the text of a number: few enough, and UTF-8.
fn is_text(bytes: &[u8]) -> bool
    ensures { result ≡ can_be_number_text bytes.now }
{
    bytes.len() <= LONGEST && is_utf8(bytes)
}
