// Reads the year's records from standard input, to its end, and prints a picture of the year, as an SVG.
#![tactic(auto)]

use chart_text::chart_text;
use std::io;

// What differs between programs that read, make a text and write it is the room and the function: one function for them all would take a closure, and so have a `requires`, which no public function here has.
// A trait as `streams::Case` would be no shorter than these lines.
fn main(rt: HostRuntime) -> io::Result<()> {
    let mut input = loads_text::room();
    let n = streams::read_full(&mut rt.stdin(), &mut input)?;
    let mut text = [0u8; 65536];
    let k = chart_text(&input[..n], &mut text);
    rt.write_all(&text[..k])
}
