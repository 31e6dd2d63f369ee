// What a script is made of: kinds, operators, terminals and instructions, as the Rust's `hir` has them. Its
// vectors are ranges of tables here, and its strings are numbers of texts. Definitions in specs/ speak of scripts with
// lists in their places; which script the tables hold is to come.
#![tactic(auto)]

mod block;
mod instruction;
mod kinds;
mod parts;
mod seal;
mod terminal;

pub use block::BlockKind;
pub use instruction::{InstructionValue, OpaquePlaces};
pub use kinds::{GotoVariant, InstructionKind, LogicalOperator, OpaqueKind, ReturnVariant};
pub use parts::{
    LValue, ListRange, ManualMemoDependencyRoot, NonLocalBinding, PrimitiveValue, PropertyLiteral,
    Span, TemplateQuasi,
};
pub use seal::{acceptance, one_refusal, seal_examples};
pub use terminal::{Case, Terminal};
