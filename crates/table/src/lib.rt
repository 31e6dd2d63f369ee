// What every layer above shares: refusals, the kinds of number, and the one table.
#![tactic(auto)]

mod id;
mod lent;
mod refusal;

pub use id::{
    BlockId, Blocks, Id, IdKind, IdentifierId, Identifiers, InstructionId, Instructions, PhiId,
    Phis, TextId, Texts,
};
pub use lent::{Table, capacity, read, write};
pub use refusal::{Cause, Layer, Refusal, Site};
