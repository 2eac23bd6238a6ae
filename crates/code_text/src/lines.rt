// Listings as text, exported and imported: one line of twelve characters to a record, its code, a space, its status as two hex digits and a line feed.
ghost use Rattle.std.specs.Prelude.{◌≡◌, ◌≤◌, length, drop};
ghost use Rattle.paper.specs.Answer.{accepted};
ghost use Rattle.paper.specs.Listing.{by_status_mask, listing, listing_bytes, records_bytes, read_listing, record_at};
ghost use Rattle.paper.specs.CodeText.{line_text, lines_text, export_listing, lines, record_in_line, records_in_lines, import_listing, NoneBad};
ghost use Rattle.wire.specs.Writing.{Wrote};
ghost use Rattle.listing.specs.Listing.{sub_of, listed_of};
ghost use Rattle.code_text.specs.CodeText.{LineStands};
ghost use Rattle.code_text.specs.Lines.{line_shown, records_read, WholeLines};

use crate::character::character;
use crate::code::{characters, code_at, digit};
use crate::place::{Sort, first_wrong};
use dtc::status::{DtcSeverityMask, DtcStatusMask};
use listing::write::{put_head, put_record};
use listing::{Listed, SubFunction, read_listing, record_at};
use wire::refusal::Refusal;
use wire::write::put_bytes;

// ---- Exported.

// A record's line. Its severity is not carried.
fn put_line(listed: Listed, out: &mut [u8]) -> Result<usize, Refusal>
    ensures { Wrote (accepted (line_text (listed_of listed))) out.old result out.new }
{
    let room = out.len();
    if room < 12 {
        return Err(Refusal::NoRoom { needed: 12, room });
    }
    let status = listed.status.bits();
    let high = character(9, status / 16);
    let low = character(10, status % 16);
    // The room was checked first, so that a refused write changes nothing: now no part is refused, and the answers are dropped, here and below.
    let _ = put_bytes(&characters(listed.code), out);
    let _ = put_bytes(&[b' ', high, low, b'\n'], &mut out[8..]);
    Ok(12)
}

// The line of the record at a place of a listing; nothing where there is none.
fn put_line_of(
    sub: SubFunction,
    listing: &[u8],
    place: usize,
    out: &mut [u8],
) -> Result<usize, Refusal>
    ensures { Wrote (accepted (line_shown (record_at place (read_listing (sub_of sub) listing.now)))) out.old result out.new }
{
    match record_at(sub, listing, place) {
        Some(listed) => put_line(listed, out),
        None => Ok(0),
    }
}

// The lines of a listing's n records.
fn put_lines(sub: SubFunction, listing: &[u8], n: usize, out: &mut [u8]) -> Result<usize, Refusal>
    requires { (n ≤ 4096) × (length (records_read (read_listing (sub_of sub) listing.now)) ≡ n) }
    ensures { Wrote (accepted (lines_text (records_read (read_listing (sub_of sub) listing.now)))) out.old result out.new }
{
    let needed = 12 * n;
    let room = out.len();
    if room < needed {
        return Err(Refusal::NoRoom { needed, room });
    }
    for k in 0..n {
        let _ = put_line_of(sub, listing, k, &mut out[12 * k..]);
    }
    Ok(needed)
}

// A listing as text. The refusals are those of reading it, then 7. A refused export changes nothing.
pub fn export_listing(sub: SubFunction, listing: &[u8], out: &mut [u8]) -> Result<usize, Refusal>
    ensures { Wrote (export_listing (sub_of sub) listing.now) out.old result out.new }
{
    let (_, records) = read_listing(sub, listing)?;
    put_lines(sub, listing, records, out)
}

// ---- Imported.

// The record whose line stands there. Its severity is unknown.
fn line_at(text: &[u8], at: usize) -> Listed
    requires { LineStands 12 at text.now }
    ensures { listed_of result ≡ record_in_line (drop at text.now) }
{
    Listed {
        known: false,
        severity: DtcSeverityMask::from_bits(0),
        functional_unit: 0,
        code: code_at(text, at),
        status: DtcStatusMask::from_bits(digit(text, at, 9) * 16 + digit(text, at, 10)),
    }
}

// The records of n lines, one after the other.
// As `listing` does it with records that are handed over, here and below: these stand in lines, and no writer of several there takes such.
fn put_records(text: &[u8], n: usize, out: &mut [u8]) -> Result<usize, Refusal>
    requires { WholeLines n text.now }
    ensures { Wrote (accepted (records_bytes by_status_mask (records_in_lines n text.now))) out.old result out.new }
{
    let needed = 4 * n;
    let room = out.len();
    if room < needed {
        return Err(Refusal::NoRoom { needed, room });
    }
    for k in 0..n {
        let _ = put_record(
            SubFunction::ByStatusMask,
            line_at(text, 12 * k),
            &mut out[4 * k..],
        );
    }
    Ok(needed)
}

// The listing of n lines.
fn put_listing(mask: DtcStatusMask, text: &[u8], n: usize, out: &mut [u8]) -> Result<usize, Refusal>
    requires { WholeLines n text.now }
    ensures { Wrote (accepted (listing_bytes (listing by_status_mask mask.bits (records_in_lines n text.now)))) out.old result out.new }
{
    let needed = 3 + 4 * n;
    let room = out.len();
    if room < needed {
        return Err(Refusal::NoRoom { needed, room });
    }
    let _ = put_head(SubFunction::ByStatusMask, mask, out);
    let _ = put_records(text, n, &mut out[3..]);
    Ok(needed)
}

// The listing of a text in which everything can stand where it is: 12 for more than 4,096 lines, then 7.
fn put_imported(mask: DtcStatusMask, text: &[u8], out: &mut [u8]) -> Result<usize, Refusal>
    requires { NoneBad lines text.now }
    ensures { Wrote (import_listing mask.bits text.now) out.old result out.new }
{
    let n = text.len() / 12;
    if 4096 < n {
        return Err(Refusal::TooMany);
    }
    put_listing(mask, text, n, out)
}

// A text as a listing of sub-function 0x02 with this mask. 18 with the place of the first character that can't stand there, counted over the whole text, its end as its length; then 12, then 7. A
// refused import changes nothing.
pub fn import_listing(mask: DtcStatusMask, text: &[u8], out: &mut [u8]) -> Result<usize, Refusal>
    ensures { Wrote (import_listing mask.bits text.now) out.old result out.new }
{
    match first_wrong(Sort::Lines, text) {
        Some(place) => Err(Refusal::BadCharacter { place }),
        None => put_imported(mask, text, out),
    }
}
