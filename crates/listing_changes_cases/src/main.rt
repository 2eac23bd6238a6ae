// Prints, for each two files that its arguments name one after the other, both names and what `listing_changes` prints of the contents.
#![tactic(auto)]

ghost use Rattle.std.specs.Io.{ReadsAtMost};

use changes_text::changes_text;
use std::fs::File;
use std::io;
use std::rt::Env;

// How many bytes stand in the file, as far as `buf` goes, at whose start they are put; none where no file could be opened.
fn read_opened(file: &mut Option<File>, buf: &mut [u8]) -> io::Result<usize>
    ensures { ReadsAtMost result buf.new }
{
    match file {
        Some(open) => streams::read_full(open, buf),
        None => Ok(0),
    }
}

fn print_text(rt: &impl Print, old: &mut Option<File>, new: &mut Option<File>) -> io::Result<()> {
    let mut first = changes_text::room();
    let n = read_opened(old, &mut first)?;
    let mut second = changes_text::room();
    let m = read_opened(new, &mut second)?;
    let mut text = changes_text::text_room();
    let k = changes_text(&first[..n], &second[..m], &mut text);
    rt.write_all(&text[..k])
}

fn print_name(rt: &(impl Env + Print), i: usize, sign: &[u8]) -> io::Result<()> {
    let mut name = [0u8; 4096];
    let n = streams::argument(rt, i, &mut name);
    rt.write_all(&name[..n])?;
    rt.write_all(sign)
}

// The file that an argument names, open for reading; where it can't be opened, standard error is told why, and nothing will be read from it.
fn opened(rt: &HostRuntime, i: usize) -> io::Result<Option<File>> {
    let mut path = [0u8; 4096];
    let n = streams::argument(rt, i, &mut path);
    streams::open_or_fail(rt, &mut rt.stderr(), &path[..n])
}

fn print_case(rt: &HostRuntime, i: usize, j: usize) -> io::Result<()> {
    print_name(rt, i, b" ")?;
    print_name(rt, j, b": ")?;
    let mut old = opened(rt, i)?;
    let mut new = opened(rt, j)?;
    print_text(rt, &mut old, &mut new)
}

// Each two arguments. What is done with two is no `Case`: a function of `streams` for this would take a closure, and so have a `requires`, which no public function here has.
fn print_all(rt: &HostRuntime) -> io::Result<()> {
    let pairs = streams::argument_count(rt, usize::MAX) / 2;
    for k in 0..pairs {
        print_case(rt, 2 * k + 1, 2 * k + 2)?;
    }
    Ok(())
}

fn main(rt: HostRuntime) -> io::Result<()> {
    print_all(&rt)
}
