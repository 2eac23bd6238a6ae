// Prints, for each file that its arguments name, the file's name with the line that the reading program prints of its contents, and again with the desk's.
#![tactic(auto)]

ghost use Rattle.std.specs.Prelude.{◌≡◌, ◌++◌, codes};
ghost use Rattle.paper.specs.ReadingProgram.{text_of, line_of};
ghost use Rattle.paper.specs.DeskProgram.{desk_line};

use desk_line::desk_text;
use request_line::text::line_text;
use std::io::{self, Read, Write};
use streams::Case;

struct RequestLines;

impl Case for RequestLines {
    // The path with the reading program's line, and again with the desk's.
    ghost prints = { λ it path input text. text ≡ (path ++ (codes ": " ++ text_of (line_of input))) ++ (path ++ (codes " at the desk: " ++ desk_line input)) };

    fn print<R: Read, W: Write>(
        &self,
        _rt: &HostRuntime,
        path: &[u8],
        file: &mut R,
        out: &mut W,
    ) -> io::Result<()> {
        let mut input = desk_line::room();
        let n = streams::read_full(file, &mut input)?;
        let mut text = [0u8; 4096];
        let k = line_text(&input[..n], &mut text);
        streams::print_line(out, path, b": ", &text[..k])?;
        let j = desk_text(&input[..n], &mut text);
        streams::print_line(out, path, b" at the desk: ", &text[..j])
    }
}

fn main(rt: HostRuntime) -> io::Result<()> {
    RequestLines.print_each(&rt, &mut rt.stdout(), &mut rt.stderr())
}
