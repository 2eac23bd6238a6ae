// Reads one file transfer request from standard input, to its end, and prints what the desk says of it: `passes`, the refusal or `too long`.
#![tactic(auto)]

use desk_line::desk_text;
use std::io;

// What differs between programs that read, make a text and write it is the room and the function: one function for them all would take a closure, and so have a `requires`, which no public function here has.
// A trait as `streams::Case` would be no shorter than these lines.
fn main(rt: HostRuntime) -> io::Result<()> {
    let mut input = desk_line::room();
    let n = streams::read_full(&mut rt.stdin(), &mut input)?;
    let mut text = [0u8; 4096];
    let k = desk_text(&input[..n], &mut text);
    rt.write_all(&text[..k])
}
