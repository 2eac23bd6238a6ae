// Reads the year's records from standard input, to its end, and prints a line for each month that has any: month, all, refused, and how many of a hundred.
#![tactic(auto)]

use loads_text::loads_text;
use std::io;

// What differs between programs that read, make a text and write it is the room and the function: one function for them all would take a closure, and so have a `requires`, which no public function here has.
// A trait as `streams::Case` would be no shorter than these lines.
fn main(rt: HostRuntime) -> io::Result<()> {
    let mut input = loads_text::room();
    let n = streams::read_full(&mut rt.stdin(), &mut input)?;
    let mut text = [0u8; 4096];
    let k = loads_text(&input[..n], &mut text);
    rt.write_all(&text[..k])
}
