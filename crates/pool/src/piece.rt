use table::TextId;

// A part of a text that is made: a text of the pool, or bytes from elsewhere.
#[derive(Clone, Copy, PartialEq, Eq, Debug)]
pub enum Piece<'a> {
    Text(TextId),
    Bytes(&'a [u8]),
}
