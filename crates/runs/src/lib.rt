// What folding a script must not change: runs, and the law that rounds and tidies keep them. There are definitions
// (specs/) and theorems about them, and no code that runs.
#![tactic(auto)]

mod cases;
mod laws;

pub use cases::{eight_cases, run_examples};
pub use laws::{folds_are_monotone, turned_within_sealed};
