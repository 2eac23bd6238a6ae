// What the programs share of reading and of their arguments, over std alone: a buffer that is filled from a reader, the arguments' bytes,
// the file that a path of bytes names, and each file that the arguments name.
#![tactic(auto)]

ghost use Rattle.std.specs.Prelude.{◌≡◌, ℕ, List, ◌++◌, ◌<◌, ◌≤◌, take, length, IfOk, IfSome, IsErr, IsNone, MatchOption, OnOk, IsUtf8};
ghost use Rattle.std.specs.Io.{ReadsAtMost};
ghost use Rattle.std.specs.Io.KnownBytes.{Consumes, IsAtEnd, Appends};
ghost use Rattle.streams.specs.Told.{Tells};
ghost use Rattle.streams.specs.Cases.{Shows, One, Each};

use std::alloc::Global;
use std::env::FillError;
use std::fs;
use std::io::{self, Read, Write};
use std::rt::{Env, Files};
use std::str::from_utf8;

// Reads until `buf` is full or the input ends, and answers how many bytes it put at the start of `buf`.
pub fn read_full<R: Read>(reader: &mut R, buf: &mut [u8]) -> io::Result<usize>
    ensures bound { ReadsAtMost result buf.new }
    ensures bytes { IfOk result (λ n. Consumes (R.remaining reader.old) (R.remaining reader.new) (take n buf.new)) }
    ensures end { IfOk result (λ n. n < length buf.new → IsAtEnd (R.remaining reader.new)) }
{
    // No `for`: each read gives as many bytes as it likes.
    let mut done = 0;
    while done < buf.len() {
        let n = reader.read(&mut buf[done..])?;
        if n == 0 {
            break;
        }
        done += n;
    }
    Ok(done)
}

// How many arguments the program was started with, its own name among them; from `most` on no more are counted.
pub fn argument_count(rt: &impl Env, most: usize) -> usize
    ensures { result ≤ most }
{
    (0..most)
        .find(|i| matches!(rt.arg(*i, &mut [0]), Err(FillError::NotPresent)))
        .unwrap_or(most)
}

// Puts argument `i` at the start of `buf` and answers its length, or 0 where it is missing or longer than `buf`.
// 0, and no `Option`: to the callers such an argument is an empty one, which names no file and is no word that they know.
pub fn argument(rt: &impl Env, i: usize, buf: &mut [u8]) -> usize
    ensures { result ≤ length buf.new }
{
    rt.arg(i, buf).unwrap_or(0)
}

// The same of the one argument that the program was started with; none where there is no argument or more than one.
pub fn lone_argument(rt: &impl Env, buf: &mut [u8]) -> Option<usize>
    ensures { IfSome result (λ n. n ≤ length buf.new) }
{
    match argument_count(rt, 3) {
        2 => Some(argument(rt, 1, buf)),
        _ => None,
    }
}

// Opens the file that a path of bytes names, for reading. A path that is no UTF-8 counts as one that can't be opened.
pub fn open_read<R: Files>(rt: &R, path: &[u8]) -> io::Result<R::File>
    ensures { (IsUtf8 path.now → ⊥) → IsErr result }
{
    let text = from_utf8(path).map_err(|_| io::Error::from(io::ErrorKind::InvalidFilename))?;
    fs::open(rt, text)
}

// The words for an error, without its number, which std writes behind them.
fn words(said: &str) -> &str {
    said.split_once(" (os error ")
        .map_or(said, |(front, _)| front)
}

// Writes a line: what could not be opened, a colon and the words for the error.
pub fn fail<W: Write>(out: &mut W, alloc: Global, path: &[u8], error: &io::Error) -> io::Result<()>
    ensures { OnOk result (Tells (W.contents out.old) (W.contents out.new) path.now) }
{
    let said = format!(in alloc; "{error}")?;
    out.write_all(path)?;
    out.write_all(b": ")?;
    out.write_all(words(&said).as_bytes())?;
    out.write_all(b"\n")?;
    Ok(())
}

// The same file; where it can't be opened there is none, and `out` is told why.
pub fn open_or_fail<R: Files + AllocGlobal, W: Write>(
    rt: &R,
    out: &mut W,
    path: &[u8],
) -> io::Result<Option<R::File>>
    ensures none { (IsUtf8 path.now → ⊥) → IfOk result IsNone }
    ensures told { IfOk result (λ file. MatchOption file (Tells (W.contents out.old) (W.contents out.new) path.now) (λ _. out.new ≡ out.old)) }
{
    match open_read(rt, path) {
        Ok(file) => Ok(Some(file)),
        Err(error) => {
            fail(out, rt.alloc(), path, &error)?;
            Ok(None)
        }
    }
}

// Prints a text behind a path and words.
pub fn print_line<W: Write>(out: &mut W, path: &[u8], words: &[u8], text: &[u8]) -> io::Result<()>
    ensures { OnOk result (Appends (W.contents out.old) (W.contents out.new) (path.now ++ (words.now ++ text.now))) }
{
    out.write_all(path)?;
    out.write_all(words)?;
    out.write_all(text)
}

// What a program prints of a file that its arguments name.
pub trait Case {
    // What it prints of a file of this name, after the bytes that it reads of it.
    ghost prints: { Self → List ℕ → List ℕ → List ℕ → Type 0 };

    // Prints what is read of a file of this name.
    fn print<R: Read, W: Write>(
        &self,
        rt: &HostRuntime,
        path: &[u8],
        file: &mut R,
        out: &mut W,
    ) -> io::Result<()>
        ensures { OnOk result (Shows (prints self.now) path.now (R.remaining file.old) (R.remaining file.new) (W.contents out.old) (W.contents out.new)) };

    // Opens the file that argument `i` names and prints it; where it can't be opened, `error` is told why.
    final fn print_argument<W: Write, E: Write>(
        &self,
        rt: &HostRuntime,
        i: usize,
        out: &mut W,
        error: &mut E,
    ) -> io::Result<()>
        ensures { OnOk result (One (prints self.now) (W.contents out.old) (W.contents out.new) (E.contents error.old) (E.contents error.new)) }
    {
        let mut path = [0u8; 4096];
        let n = argument(rt, i, &mut path);
        match open_or_fail(rt, error, &path[..n])? {
            Some(mut file) => self.print(rt, &path[..n], &mut file, out),
            None => Ok(()),
        }
    }

    // Each file that the arguments name, one after the other.
    final fn print_each<W: Write, E: Write>(
        &self,
        rt: &HostRuntime,
        out: &mut W,
        error: &mut E,
    ) -> io::Result<()>
        ensures { OnOk result (Each (prints self.now) (W.contents out.old) (E.contents error.old) (W.contents out.new) (E.contents error.new)) }
    {
        for i in 1..argument_count(rt, usize::MAX) {
            self.print_argument(rt, i, out, error)?;
        }
        Ok(())
    }
}
