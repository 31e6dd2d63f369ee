use crate::kinds::InstructionKind;
use ecma::FloatValue;
use table::{IdentifierId, TextId};

// A part of a source text, by its offsets.
#[derive(Clone, Copy)]
pub struct Span {
    pub start: u32,
    pub end: u32,
}

// Entries of a table, one after another: not a slice, since the tables are lent for each call anew.
#[derive(Clone, Copy)]
pub struct ListRange {
    pub first: u32,
    pub len: u32,
}

#[derive(Clone, Copy)]
pub struct LValue {
    pub place: IdentifierId,
    pub kind: InstructionKind,
}

// Its text is a number, where ecma's has bytes. One enum with the text as its parameter was tried: the borrow checker
// does not cover one that holds a FloatValue and, by the parameter, a reference.
#[derive(Clone, Copy)]
pub enum PrimitiveValue {
    Null,
    Undefined,
    Boolean(bool),
    Number(FloatValue),
    String(TextId),
}

// `cooked` is missing where the text has an invalid escape.
#[derive(Clone, Copy)]
pub struct TemplateQuasi {
    pub raw: TextId,
    pub cooked: Option<TextId>,
}

#[derive(Clone, Copy)]
pub enum ManualMemoDependencyRoot {
    NamedLocal { value: IdentifierId, constant: bool },
    Global { identifier_name: TextId },
}

#[derive(Clone, Copy)]
pub enum PropertyLiteral {
    String(TextId),
    Number(FloatValue),
}

#[derive(Clone, Copy)]
pub enum NonLocalBinding {
    ImportDefault {
        name: TextId,
        module: TextId,
    },
    ImportSpecifier {
        name: TextId,
        module: TextId,
        imported: TextId,
    },
    ImportNamespace {
        name: TextId,
        module: TextId,
    },
    ModuleLocal {
        name: TextId,
    },
    Global {
        name: TextId,
    },
}
