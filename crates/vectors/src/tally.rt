ghost use Rattle.std.specs.Prelude.{◌≡◌, ◌+◌, ◌^◌, ◌<◌, ◌≤◌, ◌++◌, length, IfOk, vec_len, OnOk};
ghost use Rattle.vectors.specs.Faults.{faults_of};

use crate::judge::{Flaw, judge};
use std::alloc::{AllocError, Global};
use std::fmt;

// A line that is not right. The first line is number 1.
#[derive(Clone, Copy, PartialEq, Eq, Debug, thiserror::Error)]
#[error("line {line}: {flaw}")]
pub struct Fault {
    pub line: usize,
    pub flaw: Flaw,
}

#[derive(Drop)]
pub struct Tally {
    lines: usize,
    faults: Vec<Fault>,
    ghost within: { vec_len faults ≤ lines },
}

impl Tally {
    // Judges each line of the input.
    pub fn of(heap: Global, input: &[u8]) -> Result<Tally, AllocError>
        ensures { IfOk result (λ t. t.lines ≤ length input.now) }
    {
        let mut tally = Tally {
            lines: 0,
            faults: Vec::new(heap),
        };
        for line in input.split_inclusive(|byte| *byte == b'\n') {
            tally.count(judge(line.strip_suffix(b"\n").unwrap_or(line)))?;
        }
        Ok(tally)
    }

    pub fn lines(&self) -> usize
        ensures { result ≡ self.now.lines }
    {
        self.lines
    }

    pub fn faults(&self) -> &[Fault]
        ensures { result.now ≡ self.now.faults.items }
    {
        self.faults.as_slice()
    }

    fn count(&mut self, judged: Result<(), Flaw>) -> Result<(), AllocError>
        requires { self.old.lines + 1 < 2 ^ 64 }
        ensures lines { OnOk result (self.new.lines ≡ self.old.lines + 1) }
        ensures faults { OnOk result (self.new.faults.items ≡ self.old.faults.items ++ faults_of (self.old.lines + 1) judged) }
    {
        self.lines += 1;
        let line = self.lines;
        if let Err(flaw) = judged {
            self.faults.push(Fault { line, flaw })?;
        }
        Ok(())
    }
}

impl fmt::Display for Tally {
    fn fmt<W: fmt::Write>(&self, f: &mut fmt::Formatter<W>) -> fmt::Result {
        write!(f, "vectors {} wrong {}", self.lines, self.faults.len())
    }
}

#[cfg(test)]
mod tests {
    use super::*;
    use std::test::Fail;

    #[test]
    fn empty_input(rt: HostRuntime) -> Result<(), Fail> {
        let tally = Tally::of(rt.alloc(), b"")?;
        assert!(rt; tally.faults().is_empty());
        let shown = format!(in rt.alloc(); "{tally}")?;
        assert_eq!(rt; shown.as_str(), "vectors 0 wrong 0");
        Ok(())
    }

    #[test]
    fn altered_line(rt: HostRuntime) -> Result<(), Fail> {
        let input =
            b"not true = false\nneg 0000000000000000 = 0000000000000000\n+ \"a\" \"b\" = \"ab\"\n";
        let tally = Tally::of(rt.alloc(), input)?;
        assert!(rt;
            tally.faults()
                == [Fault {
                    line: 2,
                    flaw: Flaw::Wrong,
                }]
                .as_slice()
        );
        let shown = format!(in rt.alloc(); "{tally}")?;
        assert_eq!(rt; shown.as_str(), "vectors 3 wrong 1");
        Ok(())
    }

    #[test]
    fn malformed_line(rt: HostRuntime) -> Result<(), Fail> {
        let tally = Tally::of(rt.alloc(), b"not true = false\n\nnot true = false")?;
        assert_eq!(rt; tally.lines(), 3);
        assert!(rt; tally.faults().len() == 1);
        let fault = tally.faults()[0];
        let shown = format!(in rt.alloc(); "{fault}")?;
        assert_eq!(rt; shown.as_str(), "line 2: malformed");
        Ok(())
    }
}
