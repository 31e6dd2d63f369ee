use crate::parts::{LValue, ListRange, NonLocalBinding, PrimitiveValue, PropertyLiteral, Span};
use ecma::{BinaryOperator, UnaryOperator, UpdateOperator};
use table::IdentifierId;

// What an opaque instruction reads and writes; the instruction's own place is the first written one.
#[derive(Clone, Copy)]
pub struct OpaquePlaces {
    pub operands: ListRange,
    pub written: ListRange,
}

// The kinds that a round names hold their fields. Those with an inner function or a context variable hold
// nothing, since they are refused. The others are opaque, each a case of its own as in the Rust, whose order this is.
#[derive(Clone, Copy)]
pub enum InstructionValue {
    LoadLocal {
        place: IdentifierId,
        span: Option<Span>,
    },
    LoadContext,
    DeclareLocal(OpaquePlaces),
    DeclareContext,
    StoreLocal {
        lvalue: LValue,
        value: IdentifierId,
        span: Option<Span>,
    },
    StoreContext,
    Destructure(OpaquePlaces),
    Primitive {
        value: PrimitiveValue,
        span: Option<Span>,
    },
    JSXText(OpaquePlaces),
    BinaryExpression {
        operator: BinaryOperator,
        left: IdentifierId,
        right: IdentifierId,
        span: Option<Span>,
    },
    NewExpression(OpaquePlaces),
    CallExpression(OpaquePlaces),
    MethodCall(OpaquePlaces),
    UnaryExpression {
        operator: UnaryOperator,
        value: IdentifierId,
        span: Option<Span>,
    },
    TypeCastExpression(OpaquePlaces),
    JsxExpression(OpaquePlaces),
    ObjectExpression(OpaquePlaces),
    ObjectMethod,
    ArrayExpression(OpaquePlaces),
    JsxFragment(OpaquePlaces),
    RegExpLiteral(OpaquePlaces),
    MetaProperty(OpaquePlaces),
    PropertyStore {
        object: IdentifierId,
        property: PropertyLiteral,
        value: IdentifierId,
        span: Option<Span>,
    },
    PropertyLoad {
        object: IdentifierId,
        property: PropertyLiteral,
        span: Option<Span>,
    },
    PropertyDelete(OpaquePlaces),
    ComputedStore {
        object: IdentifierId,
        property: IdentifierId,
        value: IdentifierId,
        span: Option<Span>,
    },
    ComputedLoad {
        object: IdentifierId,
        property: IdentifierId,
        span: Option<Span>,
    },
    ComputedDelete(OpaquePlaces),
    LoadGlobal {
        binding: NonLocalBinding,
        span: Option<Span>,
    },
    StoreGlobal(OpaquePlaces),
    FunctionExpression,
    TaggedTemplateExpression(OpaquePlaces),
    TemplateLiteral {
        subexprs: ListRange,
        quasis: ListRange,
        span: Option<Span>,
    },
    Await(OpaquePlaces),
    GetIterator(OpaquePlaces),
    IteratorNext(OpaquePlaces),
    NextPropertyOf(OpaquePlaces),
    PrefixUpdate {
        lvalue: IdentifierId,
        operation: UpdateOperator,
        value: IdentifierId,
        span: Option<Span>,
    },
    PostfixUpdate {
        lvalue: IdentifierId,
        operation: UpdateOperator,
        value: IdentifierId,
        span: Option<Span>,
    },
    Debugger(OpaquePlaces),
    StartMemoize {
        manual_memo_id: u32,
        deps: Option<ListRange>,
        // beside deps and not in it, as in the Rust
        has_invalid_deps: bool,
        span: Option<Span>,
    },
    FinishMemoize(OpaquePlaces),
}
