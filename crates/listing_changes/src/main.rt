// Prints what changed between two trouble-code listings, a line to an entry; its two arguments name the files that hold them, the old one first.
#![tactic(auto)]

use changes_text::{changes_text, usage_text};
use std::io;
use std::io::Read;
use std::rt::{Env, Files};

// As in the other programs with a usage: one function for them all would take `usage_text` as a closure, and so have a `requires`, which no public function here has.
// A trait as `streams::Case` would be no shorter than these lines.
fn print_usage(err: &impl Print) -> io::Result<()> {
    let mut text = [0u8; 4096];
    let k = usage_text(&mut text);
    err.write_all(&text[..k])
}

fn print_changes(rt: &impl Print, old: &mut impl Read, new: &mut impl Read) -> io::Result<()> {
    let mut first = changes_text::room();
    let n = streams::read_full(old, &mut first)?;
    let mut second = changes_text::room();
    let m = streams::read_full(new, &mut second)?;
    let mut text = changes_text::text_room();
    let k = changes_text(&first[..n], &second[..m], &mut text);
    rt.write_all(&text[..k])
}

// The file that an argument names, open for reading, or why it can't be opened.
fn opened<R: Env + Files>(rt: &R, i: usize) -> io::Result<R::File> {
    let mut path = [0u8; 4096];
    let n = streams::argument(rt, i, &mut path);
    streams::open_read(rt, &path[..n])
}

// Against the file `old`, which is open, the one that the second argument names.
fn print_against(rt: &HostRuntime, old: &mut impl Read) -> io::Result<()> {
    match opened(rt, 2) {
        Ok(mut new) => print_changes(rt, old, &mut new),
        Err(_) => print_usage(&rt.stderr()),
    }
}

fn main(rt: HostRuntime) -> io::Result<()> {
    if streams::argument_count(&rt, 4) != 3 {
        return print_usage(&rt.stderr());
    }
    match opened(&rt, 1) {
        Ok(mut old) => print_against(&rt, &mut old),
        Err(_) => print_usage(&rt.stderr()),
    }
}
