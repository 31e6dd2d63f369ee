// Bytes of a text: their classes, UTF-8, and the length in UTF-16.
#![tactic(auto)]

mod class;
mod units;
mod utf8;

pub use class::ByteClass;
pub use units::{join_adds, utf16_length};
pub use utf8::is_utf8;
