// Prints, for each file that its arguments name, the file's name and what `replay_log` prints of its contents.
#![tactic(auto)]

ghost use Rattle.std.specs.Prelude.{◌≡◌, ◌++◌, codes};
ghost use Rattle.paper.specs.ReplayProgram.{replay_text};

use replay_line::replay_text;
use std::io::{self, Read, Write};
use streams::Case;

struct ReplayedLog;

impl Case for ReplayedLog {
    // The path and what is printed of the log.
    ghost prints = { λ it path input text. text ≡ path ++ (codes ": " ++ replay_text input) };

    fn print<R: Read, W: Write>(
        &self,
        _rt: &HostRuntime,
        path: &[u8],
        file: &mut R,
        out: &mut W,
    ) -> io::Result<()> {
        let mut log = replay_line::room();
        let n = streams::read_full(file, &mut log)?;
        let mut text = [0u8; 4096];
        let k = replay_text(&log[..n], &mut text);
        streams::print_line(out, path, b": ", &text[..k])
    }
}

fn main(rt: HostRuntime) -> io::Result<()> {
    ReplayedLog.print_each(&rt, &mut rt.stdout(), &mut rt.stderr())
}
