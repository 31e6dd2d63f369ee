use crate::kinds::{GotoVariant, LogicalOperator, ReturnVariant};
use crate::parts::{ListRange, Span};
use table::{BlockId, IdentifierId};

// A case of a switch; the default one has no test.
#[derive(Clone, Copy)]
pub struct Case {
    pub test: Option<IdentifierId>,
    pub block: BlockId,
}

#[derive(Clone, Copy)]
pub enum Terminal {
    Unreachable {
        span: Option<Span>,
    },
    Throw {
        value: IdentifierId,
        span: Option<Span>,
    },
    Return {
        value: IdentifierId,
        return_variant: ReturnVariant,
        span: Option<Span>,
    },
    Goto {
        block: BlockId,
        variant: GotoVariant,
        span: Option<Span>,
    },
    If {
        test: IdentifierId,
        consequent: BlockId,
        alternate: BlockId,
        fallthrough: BlockId,
        span: Option<Span>,
    },
    Branch {
        test: IdentifierId,
        consequent: BlockId,
        alternate: BlockId,
        fallthrough: BlockId,
        span: Option<Span>,
    },
    Switch {
        test: IdentifierId,
        cases: ListRange,
        fallthrough: BlockId,
        span: Option<Span>,
    },
    DoWhile {
        loop_block: BlockId,
        test: BlockId,
        fallthrough: BlockId,
        span: Option<Span>,
    },
    While {
        test: BlockId,
        loop_block: BlockId,
        fallthrough: BlockId,
        span: Option<Span>,
    },
    For {
        init: BlockId,
        test: BlockId,
        update: Option<BlockId>,
        loop_block: BlockId,
        fallthrough: BlockId,
        span: Option<Span>,
    },
    ForOf {
        init: BlockId,
        test: BlockId,
        loop_block: BlockId,
        fallthrough: BlockId,
        span: Option<Span>,
    },
    ForIn {
        init: BlockId,
        loop_block: BlockId,
        fallthrough: BlockId,
        span: Option<Span>,
    },
    Logical {
        operator: LogicalOperator,
        test: BlockId,
        fallthrough: BlockId,
        span: Option<Span>,
    },
    Ternary {
        test: BlockId,
        fallthrough: BlockId,
        span: Option<Span>,
    },
    Optional {
        optional: bool,
        test: BlockId,
        fallthrough: BlockId,
        span: Option<Span>,
    },
    Label {
        block: BlockId,
        fallthrough: BlockId,
        span: Option<Span>,
    },
    Sequence {
        block: BlockId,
        fallthrough: BlockId,
        span: Option<Span>,
    },
    MaybeThrow {
        continuation: BlockId,
        handler: Option<BlockId>,
        span: Option<Span>,
    },
    Try {
        block: BlockId,
        handler_binding: Option<IdentifierId>,
        handler: BlockId,
        fallthrough: BlockId,
        span: Option<Span>,
    },
    Scope {
        fallthrough: BlockId,
        block: BlockId,
        scope: u32,
        span: Option<Span>,
    },
    PrunedScope {
        fallthrough: BlockId,
        block: BlockId,
        scope: u32,
        span: Option<Span>,
    },
}
