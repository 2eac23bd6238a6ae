// Prints, for each file that its arguments name, the file's name with the line that the program `why_refused` prints of its contents as a request, and again as a response.
#![tactic(auto)]

ghost use Rattle.std.specs.Prelude.{◌≡◌, ◌++◌, codes, OnOk};
ghost use Rattle.std.specs.Io.KnownBytes.{Appends};
ghost use Rattle.paper.specs.WhyProgram.{request, response, why_line, checks_of};
ghost use Rattle.reason_line.specs.Sort.{sort_said};

use reason_line::sort::Sort;
use reason_line::text::why_text;
use std::io::{self, Read, Write};
use streams::Case;

struct WhyRefused;

impl Case for WhyRefused {
    // The path with what is said of the file as a request, and again as a response.
    ghost prints = { λ it path input text. text ≡ (path ++ (codes " as a request: " ++ why_line (checks_of request) input)) ++ (path ++ (codes " as a response: " ++ why_line (checks_of response) input)) };

    fn print<R: Read, W: Write>(
        &self,
        _rt: &HostRuntime,
        path: &[u8],
        file: &mut R,
        out: &mut W,
    ) -> io::Result<()> {
        let mut input = reason_line::room();
        let n = streams::read_full(file, &mut input)?;
        print_why(out, path, b" as a request: ", Sort::Request, &input[..n])?;
        print_why(out, path, b" as a response: ", Sort::Response, &input[..n])
    }
}

fn print_why<W: Write>(
    out: &mut W,
    path: &[u8],
    words: &[u8],
    sort: Sort,
    input: &[u8],
) -> io::Result<()>
    ensures { OnOk result (Appends (W.contents out.old) (W.contents out.new) (path.now ++ (words.now ++ why_line (checks_of (sort_said sort)) input.now))) }
{
    let mut text = [0u8; 4096];
    let k = why_text(sort, input, &mut text);
    streams::print_line(out, path, words, &text[..k])
}

fn main(rt: HostRuntime) -> io::Result<()> {
    WhyRefused.print_each(&rt, &mut rt.stdout(), &mut rt.stderr())
}
