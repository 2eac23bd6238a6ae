// Reads a trouble-code listing of up to 65,536 bytes from standard input, and prints it one line to a code; of a listing that is refused the refusal.
#![tactic(auto)]

use listing_text::export::{export_text, text_room};
use std::io;

// What differs between programs that read, make a text and write it is the room and the function: one function for them all would take a closure, and so have a `requires`, which no public function here has.
// A trait as `streams::Case` would be no shorter than these lines.
fn main(rt: HostRuntime) -> io::Result<()> {
    let mut listing = listing_text::room();
    let n = streams::read_full(&mut rt.stdin(), &mut listing)?;
    let mut text = text_room();
    let k = export_text(&listing[..n], &mut text);
    rt.write_all(&text[..k])
}
