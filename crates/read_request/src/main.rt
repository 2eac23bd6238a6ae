// Reads one file transfer request from standard input, to its end, and prints one line about it.
#![tactic(auto)]

use request_line::text::line_text;
use std::io;

// The buffer holds more than a message may have, so that a longer input is seen to be too long.
// What differs between programs that read, make a text and write it is the room and the function: one function for them all would take a closure, and so have a `requires`, which no public function here has.
// A trait as `streams::Case` would be no shorter than these lines.
fn main(rt: HostRuntime) -> io::Result<()> {
    let mut input = [0u8; 65536];
    let n = streams::read_full(&mut rt.stdin(), &mut input)?;
    let mut text = [0u8; 4096];
    let k = line_text(&input[..n], &mut text);
    rt.write_all(&text[..k])
}
