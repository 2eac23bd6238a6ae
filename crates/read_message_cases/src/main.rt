// Prints, for each file that its arguments name, the file's name with the line that the program `read_message` prints of its contents.
#![tactic(auto)]

ghost use Rattle.std.specs.Prelude.{◌≡◌, ◌++◌, codes};
ghost use Rattle.paper.specs.MessageProgram.{message_line};

use message_line::text::message_text;
use std::io::{self, Read, Write};
use streams::Case;

struct MessageLine;

impl Case for MessageLine {
    // The path and the line of the message.
    ghost prints = { λ it path input text. text ≡ path ++ (codes ": " ++ message_line input) };

    fn print<R: Read, W: Write>(
        &self,
        _rt: &HostRuntime,
        path: &[u8],
        file: &mut R,
        out: &mut W,
    ) -> io::Result<()> {
        let mut input = [0u8; 65536];
        let n = streams::read_full(file, &mut input)?;
        let mut text = [0u8; 4096];
        let k = message_text(&input[..n], &mut text);
        streams::print_line(out, path, b": ", &text[..k])
    }
}

fn main(rt: HostRuntime) -> io::Result<()> {
    MessageLine.print_each(&rt, &mut rt.stdout(), &mut rt.stderr())
}
