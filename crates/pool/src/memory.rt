use crate::mark::Mark;
use crate::row::TextRow;

// The memory of a pool, lent for some calls: how much is used, the bytes, and a row for each text.
#[derive(Drop)]
pub struct Pool<'a> {
    pub mark: &'a mut Mark,
    pub bytes: &'a mut [u8],
    pub rows: &'a mut [TextRow],
}
