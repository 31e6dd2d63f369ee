#[derive(Clone, Copy)]
pub enum BlockKind {
    Block,
    Value,
    Loop,
    Sequence,
    Catch,
}
