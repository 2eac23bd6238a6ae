// Counts the lines, and prints those that differ.
ghost use Rattle.std.specs.Prelude.{◌≡◌};
ghost use Rattle.oracle_answers.specs.Tally.{nothing_yet, passed_over, Judged};

use std::io::Result;

#[derive(Clone, Copy)]
pub(crate) struct Tally {
    lines: u64,
    answers: u64,
    differ: u64,
}

const PRINTED: u64 = 10;

impl Tally {
    pub(crate) fn start() -> Tally
        ensures { result ≡ nothing_yet }
    {
        Tally {
            lines: 0,
            answers: 0,
            differ: 0,
        }
    }

    // A line that has no answer.
    pub(crate) fn passed(self) -> Tally
        ensures { result ≡ passed_over self }
    {
        Tally {
            lines: self.lines.wrapping_add(1),
            ..self
        }
    }

    // A line that has one, and the line with our answer instead.
    pub(crate) fn judged(self, line: &[u8], ours: &[u8]) -> Tally
        ensures { Judged line.now ours.now self result }
    {
        let differ = if ours == line {
            self.differ
        } else {
            self.differ.wrapping_add(1)
        };
        Tally {
            lines: self.lines.wrapping_add(1),
            answers: self.answers.wrapping_add(1),
            differ,
        }
    }

    // Only prints: the line that was judged between these two tallies, if it differs and is one of the first that do.
    pub(crate) fn print_if_differs(
        self,
        rt: &impl Print,
        before: Tally,
        line: &[u8],
    ) -> Result<()> {
        if before.differ < PRINTED && before.differ != self.differ {
            print_line(rt, self.lines, line)?;
        }
        Ok(())
    }

    // Only prints.
    pub(crate) fn sum_up(self, rt: &impl Print) -> Result<()> {
        let answers = self.answers;
        let differ = self.differ;
        println!(rt; "{answers} answers, {differ} differ")
    }
}

// Only prints.
fn print_line(rt: &impl Print, number: u64, line: &[u8]) -> Result<()> {
    print!(rt; "line {number} differs: ")?;
    rt.write_all(line)?;
    rt.write_all(b"\n")
}
