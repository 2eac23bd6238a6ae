// Prints, for each word and file that its arguments name, both names and what `import_listing` writes with that word of the file's contents: a listing, and a line feed after it, or a line.
#![tactic(auto)]

ghost use Rattle.std.specs.Prelude.{◌≡◌, ℕ, List, ◌++◌, codes, OnOk};
ghost use Rattle.std.specs.Io.KnownBytes.{Appends, Consumes};
ghost use Rattle.paper.specs.ListingProgram.{to_error, import_prints, import_writes, how_to_use};
ghost use Rattle.import_listing_cases.specs.Shown.{shown};

use dtc::status::DtcStatusMask;
use listing_text::import::{Printed, import_text, listing_room, mask_in, usage_text};
use std::io::{self, Read, Write};
use streams::Case;

// The file that comes after a word, which is this argument.
#[derive(Clone, Copy)]
struct AfterWord(usize);

impl Case for AfterWord {
    // The word and the path, and what is written of the file with that word.
    ghost prints = { λ it path input text. (word : List ℕ) × (text ≡ (word ++ (codes " " ++ path)) ++ shown (import_writes word input)) };

    fn print<R: Read, W: Write>(
        &self,
        rt: &HostRuntime,
        path: &[u8],
        file: &mut R,
        out: &mut W,
    ) -> io::Result<()> {
        let mut word = [0u8; 4096];
        let k = streams::argument(rt, self.0, &mut word);
        streams::print_line(out, &word[..k], b" ", path)?;
        match mask_in(&word[..k]) {
            Some(mask) => print_imported(out, mask, file),
            None => print_usage(out),
        }
    }
}

fn print_imported<R: Read, W: Write>(
    out: &mut W,
    mask: DtcStatusMask,
    file: &mut R,
) -> io::Result<()>
    ensures { OnOk result ((input : List ℕ) × Consumes (R.remaining file.old) (R.remaining file.new) input × Appends (W.contents out.old) (W.contents out.new) (shown (import_prints mask.bits input))) }
{
    let mut text = listing_text::room();
    let n = streams::read_full(file, &mut text)?;
    let mut listing = listing_room();
    match import_text(mask, &text[..n], &mut listing) {
        Printed::ToOutput(k) => {
            streams::print_line(out, b" to standard output:\n", &listing[..k], b"\n")
        }
        Printed::ToError(k) => {
            out.write_all(b" to standard error:\n")?;
            out.write_all(&listing[..k])
        }
    }
}

fn print_usage<W: Write>(out: &mut W) -> io::Result<()>
    ensures { OnOk result (Appends (W.contents out.old) (W.contents out.new) (shown (to_error how_to_use))) }
{
    let mut text = listing_room();
    let k = usage_text(&mut text);
    out.write_all(b" to standard error:\n")?;
    out.write_all(&text[..k])
}

// Each two arguments. What is done with two is no `Case`: a function of `streams` for this would take a closure, and so have a `requires`, which no public function here has.
fn print_all(rt: &HostRuntime) -> io::Result<()> {
    let pairs = streams::argument_count(rt, usize::MAX) / 2;
    for i in 0..pairs {
        AfterWord(2 * i + 1).print_argument(rt, 2 * i + 2, &mut rt.stdout(), &mut rt.stderr())?;
    }
    Ok(())
}

fn main(rt: HostRuntime) -> io::Result<()> {
    print_all(&rt)
}
