// What the program `listing_changes` prints of two files, down to its text, and the rooms that it reads and writes in.
#![tactic(auto)]

mod line;

ghost use Rattle.std.specs.Prelude.{◌≡◌, length, replicate};
ghost use Rattle.io.specs.Counts.{IsPrefixLen};
ghost use Rattle.paper.specs.Answer.{over};
ghost use Rattle.paper.specs.Changes.{read_for_changes};
ghost use Rattle.paper.specs.ListingProgram.{sub_function_said};
ghost use Rattle.paper.specs.ChangesProgram.{compared_text, changes_printed, how_to_use};
ghost use Rattle.form.specs.Text.{Grew};
ghost use Rattle.changes_text.specs.Entries.{refused_said};

use crate::line::put_changes;
use form::{put, put_form};
use listing::changes::{ChangesRefusal, listing_changes};
use listing::sub_function_said;

// Room for a file: one byte more than it may have, so that a longer one is seen to be too long. All zeros.
pub fn room() -> [u8; 65537]
    ensures len { 65537 ≡ length result }
    ensures zeros { result ≡ replicate 65537 0 }
{
    [0; 65537]
}

// Room for the text, which always fits: 24 bytes for each of 4,096 records of either listing, and of a record there is at most one line, of at most 23 characters. All zeros.
pub fn text_room() -> [u8; 196608]
    ensures len { 196608 ≡ length result }
    ensures zeros { result ≡ replicate 196608 0 }
{
    [0; 196608]
}

// Room for the entries, which always fit: six bytes to each of 4,096 records of either listing.
fn entries_room() -> [u8; 49152]
    ensures { 49152 ≡ length result }
{
    [0; 49152]
}

// `refused first N A B` or `refused second N A B`, by which listing was refused. The room is never too small, and so never the reason.
fn put_refused(refused: ChangesRefusal, out: &mut [u8]) -> usize
    ensures { Grew (refused_said refused) 81 0 out.old result out.new }
{
    let (form, e) = match refused {
        ChangesRefusal::First(e) => (b"refused first _ _ _\n".as_slice(), e),
        ChangesRefusal::Second(e) | ChangesRefusal::Room(e) => (
            b"refused second _ _ _\n".as_slice(),
            e,
        ),
    };
    let numbers = [e.number() as u64, e.first() as u64, e.second() as u64];
    put_form(form, &numbers, out, 0)
}

// What is said of two listings: which is refused, and why, or what changed.
fn put_compared(first: &[u8], second: &[u8], out: &mut [u8]) -> usize
    ensures { Grew (compared_text (read_for_changes (sub_function_said first.now) first.now) (read_for_changes (sub_function_said second.now) second.now)) 188427 0 out.old result out.new }
{
    let old = sub_function_said(first);
    let new = sub_function_said(second);
    let mut entries = entries_room();
    match listing_changes(old, first, new, second, &mut entries) {
        Ok(n) => put_changes(&entries, n / 6, out),
        Err(e) => put_refused(e, out),
    }
}

// All that the program prints of two files, from the start of `out`. How many bytes it has.
// Above 65,536 bytes of either it is too long; else each is read as the listing that it says it is, and the two are compared.
pub fn changes_text(first: &[u8], second: &[u8], out: &mut [u8; 196608]) -> usize
    ensures value { result ≡ length (changes_printed first.now second.now) }
    ensures out_after { out.new ≡ over (changes_printed first.now second.now) out.old }
    ensures prefix_len { IsPrefixLen result out.new }
{
    if 65536 < first.len() || 65536 < second.len() {
        return put(b"too long\n", out, 0);
    }
    put_compared(first, second, out)
}

// How the program is used, which it says where its arguments aren't two files.
pub fn usage_text(out: &mut [u8; 4096]) -> usize
    ensures value { result ≡ length how_to_use }
    ensures out_after { out.new ≡ over how_to_use out.old }
    ensures prefix_len { IsPrefixLen result out.new }
{
    put(
        b"usage: listing_changes OLD NEW, each a file with one listing\n",
        out,
        0,
    )
}
