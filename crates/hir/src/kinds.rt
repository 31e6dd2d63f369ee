#[derive(Clone, Copy)]
pub enum ReturnVariant {
    Void,
    Implicit,
    Explicit,
}

#[derive(Clone, Copy)]
pub enum GotoVariant {
    Break,
    Continue,
    Try,
}

#[derive(Clone, Copy)]
pub enum InstructionKind {
    Const,
    Let,
    Reassign,
    Catch,
    HoistedConst,
    HoistedLet,
    HoistedFunction,
    Function,
}

#[derive(Clone, Copy)]
pub enum LogicalOperator {
    Or,
    And,
    Coalesce,
}

// The kinds of instruction that are opaque: only what they read and write is held. A script's definitions name them;
// `InstructionValue` has a case for each.
#[derive(Clone, Copy)]
pub enum OpaqueKind {
    DeclareLocal,
    Destructure,
    JSXText,
    NewExpression,
    CallExpression,
    MethodCall,
    TypeCastExpression,
    JsxExpression,
    ObjectExpression,
    ArrayExpression,
    JsxFragment,
    RegExpLiteral,
    MetaProperty,
    PropertyDelete,
    ComputedDelete,
    StoreGlobal,
    TaggedTemplateExpression,
    Await,
    GetIterator,
    IteratorNext,
    NextPropertyOf,
    Debugger,
    FinishMemoize,
}
