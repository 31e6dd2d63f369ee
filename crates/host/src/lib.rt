// Hosts: what turns numbers into texts and texts into numbers, and judges names.
#![tactic(auto)]

mod digit;
mod digit_name;
mod digit_number;
mod digit_text;
mod examples;
mod host;
mod list;
mod number_text;
mod pair;

pub use digit::DigitHost;
pub use examples::worked_examples;
pub use host::Host;
pub use list::{ListHost, NameEntry, NumberEntry, TextEntry};
pub use number_text::NumberText;
pub use pair::PairHost;
