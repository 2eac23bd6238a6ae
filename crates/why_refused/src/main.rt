// Reads one file transfer message from standard input, to its end, and prints why it is refused, or that it is accepted; its one argument is `request` or `response`.
#![tactic(auto)]

use reason_line::sort::{Sort, sort_named};
use reason_line::text::{usage_text, why_text};
use std::io;
use std::rt::Env;

fn print_line(rt: &HostRuntime, sort: Sort) -> io::Result<()> {
    let mut input = reason_line::room();
    let n = streams::read_full(&mut rt.stdin(), &mut input)?;
    let mut text = [0u8; 4096];
    let k = why_text(sort, &input[..n], &mut text);
    rt.write_all(&text[..k])
}

// As in the other programs with a usage: one function for them all would take `usage_text` as a closure, and so have a `requires`, which no public function here has.
// A trait as `streams::Case` would be no shorter than these lines.
fn print_usage(err: &impl Print) -> io::Result<()> {
    let mut text = [0u8; 4096];
    let k = usage_text(&mut text);
    err.write_all(&text[..k])
}

// The sort that the one argument names; none where there is no argument or more than one.
fn sort_asked(rt: &impl Env) -> Option<Sort> {
    let mut word = [0u8; 4096];
    let n = streams::lone_argument(rt, &mut word)?;
    sort_named(&word[..n])
}

fn main(rt: HostRuntime) -> io::Result<()> {
    match sort_asked(&rt) {
        Some(sort) => print_line(&rt, sort),
        None => print_usage(&rt.stderr()),
    }
}
