// Texts of UTF-8 in lent memory, each with a number: adding one, finding one, and making one out of pieces.
#![tactic(auto)]

mod make;
mod making;
mod mark;
mod memory;
mod piece;
mod row;
mod texts;

pub use making::{Making, capacity};
pub use mark::Mark;
pub use memory::Pool;
pub use piece::Piece;
pub use row::TextRow;
pub use texts::{text_bytes, text_row};
