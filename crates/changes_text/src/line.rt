// The lines of entries. The first `at` bytes of `out` are the text so far; each function adds to them and answers how many they then are.
// `out` and `at` are two parameters, and no part is put by `write!`, for the reasons that stand in crate `form`.
// The parts of an entry are taken from its six bytes: `listing` writes entries as bytes, and its `Entry` is private.
ghost use Rattle.std.specs.Prelude.{◌++◌, ◌+◌, ◌*◌, ◌≤◌, length, drop};
ghost use Rattle.paper.specs.ReadingProgram.{ascii};
ghost use Rattle.paper.specs.MessageProgram.{hex_byte};
ghost use Rattle.paper.specs.Changes.{differs, entry_from, entry_in};
ghost use Rattle.paper.specs.CodeText.{code_text};
ghost use Rattle.paper.specs.ChangesProgram.{entry_line};
ghost use Rattle.dtc.specs.Status.{code_of};
ghost use Rattle.form.specs.Text.{Grew};
ghost use Rattle.changes_text.specs.Entries.{lines_in, changes_said};

use code_text::code::put_code_text;
use dtc::status::DtcRecord;
use form::{put, put_hex};

fn put_code(code: DtcRecord, out: &mut [u8], at: usize) -> usize
    ensures { Grew (code_text (code_of code)) 8 at out.old result out.new }
{
    let mut text = [0u8; 8];
    let _ = put_code_text(code, &mut text);
    put(&text, out, at)
}

// A space and a status, in two digits of sixteen.
fn put_status(status: u8, out: &mut [u8], at: usize) -> usize
    ensures { Grew (ascii " " ++ hex_byte status) 3 at out.old result out.new }
{
    let a = put(b" ", out, at);
    put_hex(status, out, a)
}

// A word, a code and one status: the line of a code that is gone, or new.
fn put_one(word: &[u8], code: DtcRecord, status: u8, out: &mut [u8], at: usize) -> usize
    ensures { Grew (word.now ++ (code_text (code_of code) ++ (ascii " " ++ (hex_byte status ++ ascii "\n")))) (length word.now + 12) at out.old result out.new }
{
    let a = put(word, out, at);
    let b = put_code(code, out, a);
    let c = put_status(status, out, b);
    put(b"\n", out, c)
}

// A word, a code, the old status and the new one: the line of a code whose record differs.
fn put_both(code: DtcRecord, old: u8, new: u8, out: &mut [u8], at: usize) -> usize
    ensures { Grew (entry_line (differs (code_of code) old new)) 23 at out.old result out.new }
{
    let a = put(b"differs ", out, at);
    let b = put_code(code, out, a);
    let c = put_status(old, out, b);
    let d = put_status(new, out, c);
    put(b"\n", out, d)
}

// The line of an entry: 1 gone, 2 differs, else new.
// The kind is the first of the entry's bytes: the paper's `entry_from` reads it in the same way, and takes any other for new.
fn put_entry(kind: u8, code: DtcRecord, old: u8, new: u8, out: &mut [u8], at: usize) -> usize
    ensures { Grew (entry_line (entry_from kind (code_of code) old new)) 23 at out.old result out.new }
{
    match kind {
        1 => put_one(b"gone ", code, old, out, at),
        2 => put_both(code, old, new, out, at),
        _ => put_one(b"new ", code, new, out, at),
    }
}

// The line of the entry at place k, of six bytes each.
fn put_line(entries: &[u8], k: usize, out: &mut [u8], at: usize) -> usize
    requires { 6 * k + 6 ≤ length entries.now }
    ensures { Grew (entry_line (entry_in (drop (6 * k) entries.now))) 23 at out.old result out.new }
{
    let i = 6 * k;
    let code = DtcRecord::new(entries[i + 1], entries[i + 2], entries[i + 3]);
    put_entry(entries[i], code, entries[i + 4], entries[i + 5], out, at)
}

// The lines of n entries, from the start of `out`.
fn put_lines(entries: &[u8], n: usize, out: &mut [u8]) -> usize
    requires { 6 * n ≤ length entries.now }
    ensures { Grew (lines_in n entries.now) (23 * n) 0 out.old result out.new }
{
    let mut end = 0;
    for k in 0..n {
        end = put_line(entries, k, out, end);
    }
    end
}

// What is said of n entries, from the start of `out`: that there is none, or their lines.
pub(crate) fn put_changes(entries: &[u8], n: usize, out: &mut [u8]) -> usize
    requires { 6 * n ≤ length entries.now }
    ensures { Grew (changes_said n entries.now) (11 + 23 * n) 0 out.old result out.new }
{
    if n == 0 {
        return put(b"no changes\n", out, 0);
    }
    put_lines(entries, n, out)
}
