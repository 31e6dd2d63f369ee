// Folds one small sizing script, from its first instruction to its last, and prints what each
// instruction became.
#![tactic(auto)]

mod evaluation;
mod operation;
mod script;
mod text;

use arrayvec::ArrayVec;
use ecma::PrimitiveValue;
use evaluation::evaluate;
use script::{LENGTH, SCRIPT};
use std::io;
use text::Row;

fn main(rt: HostRuntime) -> io::Result<()> {
    let mut known: ArrayVec<Option<PrimitiveValue<'static>>, LENGTH> = ArrayVec::new();
    // no chain: each instruction reads what the ones before it became
    for (number, (name, operation)) in SCRIPT.iter().enumerate() {
        let value = evaluate(*operation, &known);
        known.push(value);
        let row = Row {
            number,
            name,
            operation: *operation,
            value,
        };
        println!(rt; "{row}")?;
    }
    let folded = known.iter().filter(|value| value.is_some()).count();
    let length = known.len();
    let left = length - folded;
    println!(rt; "instructions {length} folded {folded} left {left}")
}
