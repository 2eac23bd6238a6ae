// Reads a text of up to 65,536 bytes from standard input, one line to a code, and writes it as a listing of sub-function 0x02; its one argument is the availability mask, two hex digits.
// The listing goes to standard output. A refusal, or how it is used, goes to standard error, and then nothing to standard output.
#![tactic(auto)]

use dtc::status::DtcStatusMask;
use listing_text::import::{Printed, import_text, listing_room, mask_in, usage_text};
use std::io;
use std::rt::Env;

fn write_listing(rt: &HostRuntime, mask: DtcStatusMask) -> io::Result<()> {
    let mut text = listing_text::room();
    let n = streams::read_full(&mut rt.stdin(), &mut text)?;
    let mut out = listing_room();
    match import_text(mask, &text[..n], &mut out) {
        Printed::ToOutput(k) => rt.stdout().write_all(&out[..k]),
        Printed::ToError(k) => rt.stderr().write_all(&out[..k]),
    }
}

// As in the other programs with a usage: one function for them all would take `usage_text` as a closure, and so have a `requires`, which no public function here has.
// A trait as `streams::Case` would be no shorter than these lines.
fn print_usage(err: &impl Print) -> io::Result<()> {
    let mut text = listing_room();
    let k = usage_text(&mut text);
    err.write_all(&text[..k])
}

// The mask that the one argument is; none where there is no argument or more than one.
fn mask_asked(rt: &impl Env) -> Option<DtcStatusMask> {
    let mut word = [0u8; 4096];
    let n = streams::lone_argument(rt, &mut word)?;
    mask_in(&word[..n])
}

fn main(rt: HostRuntime) -> io::Result<()> {
    match mask_asked(&rt) {
        Some(mask) => write_listing(&rt, mask),
        None => print_usage(&rt.stderr()),
    }
}
