// Judges the vectors of standard input, each a line as src/line.rt has it: prints a line for each
// that is malformed or wrong, and last how many there were.
#![tactic(auto)]

mod hex;
mod judge;
mod line;
mod operation;
mod scan;
mod tally;
mod value;
mod vector;

use std::io;
use std::io::Read;

fn main(rt: HostRuntime) -> io::Result<()> {
    let mut input = Vec::new(rt.alloc());
    rt.stdin().read_to_end(&mut input)?;
    let tally = tally::Tally::of(rt.alloc(), &input)?;
    for fault in tally.faults() {
        println!(rt; "{fault}")?;
    }
    println!(rt; "{tally}")
}
