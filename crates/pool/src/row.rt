ghost use Rattle.std.specs.Prelude.{◌≡◌, ◌+◌};

// Where a text stands in the pool: by numbers, since the memory is lent for each call anew.
#[derive(Clone, Copy, PartialEq, Eq, Debug)]
pub struct TextRow {
    pub start: u32,
    pub len: u32,
}

impl TextRow {
    // Where the text ends.
    pub(crate) fn end(self) -> usize
        ensures { result ≡ self.start + self.len }
    {
        self.start as usize + self.len as usize
    }
}
