// Goes through a recorded list of the original's answers, in the file that its first argument names: makes each call anew, and prints the lines that differ, and how many there are.
#![tactic(auto)]

ghost use Rattle.std.specs.Prelude.{◌≡◌, ℕ, Bool, List, [], codes, OnOk};
ghost use Rattle.std.specs.Io.KnownBytes.{Consumes};
ghost use Rattle.paper.specs.Choice.{pick};

mod count;
mod hex;
mod line;

use count::Tally;
use std::io::{Read, Result, Write};
use streams::Case;

// As many as are read; a list has fewer.
const PAGES: usize = 64;

// The next 65,536 bytes, or as many as there are. No line of a list goes on in the next page.
fn next_page<R: Read>(rt: &impl Print, file: &mut R, t: Tally) -> Result<Tally>
    ensures { OnOk result ((read : List ℕ) × Consumes (R.remaining file.old) (R.remaining file.new) read) }
{
    let mut page = [0u8; 65536];
    let n = streams::read_full(file, &mut page)?;
    line::lines(rt, t, &page[..n])
}

fn pages<R: Read>(rt: &impl Print, file: &mut R) -> Result<Tally>
    ensures { OnOk result ((read : List ℕ) × Consumes (R.remaining file.old) (R.remaining file.new) read) }
{
    let mut t = Tally::start();
    for _ in 0..PAGES {
        t = next_page(rt, file, t)?;
    }
    Ok(t)
}

fn goes_on<R: Read>(file: &mut R) -> Result<bool>
    ensures { OnOk result ((read : List ℕ) × Consumes (R.remaining file.old) (R.remaining file.new) read) }
{
    let mut rest = [0u8; 4096];
    Ok(streams::read_full(file, &mut rest)? > 0)
}

struct RecordedAnswers;

impl Case for RecordedAnswers {
    // The lines that differ, and their count, go to standard output as they are found; to `out` goes only what is said behind them, if anything.
    ghost prints = { λ it path input text. (said : Bool) × (text ≡ pick said (codes "the file goes on, and was not read to its end\n") []) };

    fn print<R: Read, W: Write>(
        &self,
        rt: &HostRuntime,
        _path: &[u8],
        file: &mut R,
        out: &mut W,
    ) -> Result<()> {
        pages(rt, file)?.sum_up(rt)?;
        if goes_on(file)? {
            return out.write_all(b"the file goes on, and was not read to its end\n");
        }
        Ok(())
    }
}

fn main(rt: HostRuntime) -> Result<()> {
    RecordedAnswers.print_argument(&rt, 1, &mut rt.stdout(), &mut rt.stderr())
}
