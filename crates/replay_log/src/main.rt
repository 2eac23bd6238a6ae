// Reads the log of a transfer, up to 65,536 records, from standard input, and prints the state that it leads to; of a log that is refused the refusal, and then the state before it.
#![tactic(auto)]

use replay_line::replay_text;
use std::io;

// What differs between programs that read, make a text and write it is the room and the function: one function for them all would take a closure, and so have a `requires`, which no public function here has.
// A trait as `streams::Case` would be no shorter than these lines.
fn main(rt: HostRuntime) -> io::Result<()> {
    let mut log = replay_line::room();
    let n = streams::read_full(&mut rt.stdin(), &mut log)?;
    let mut text = [0u8; 4096];
    let k = replay_text(&log[..n], &mut text);
    rt.write_all(&text[..k])
}
