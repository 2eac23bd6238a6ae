// What changed between two listings, either of them of either sub-function: the codes that are gone, those whose record differs and those that are new, as entries of six bytes.
// Every search goes by the index of the listing that is searched.
ghost use Rattle.std.specs.Prelude.{◌≡◌, ◌*◌, ◌<◌, ◌≤◌, length, take, ltb, [], ◌∷◌, ◌++◌, MatchOption};
ghost use Rattle.paper.specs.Answer.{accepted};
ghost use Rattle.paper.specs.TroubleCode.{trouble_code_bytes};
ghost use Rattle.paper.specs.Tally.{count};
ghost use Rattle.paper.specs.Listing.{head_of, has_code};
ghost use Rattle.paper.specs.Changes.{entry_bytes, entries_bytes, same_record, of_first, of_second, changes, first_repeated, read_for_changes, compared};
ghost use Rattle.wire.specs.Writing.{Wrote, Filled};
ghost use Rattle.dtc.specs.Status.{code_of};
ghost use Rattle.listing.specs.Listing.{sub_of, listed_of, head_said};
ghost use Rattle.listing.specs.Records.{listed_at};
ghost use Rattle.listing.specs.Index.{found_said};
ghost use Rattle.listing.specs.Searchable.{searched, searched_said};
ghost use Rattle.listing.specs.Changes.{entry_said, entries_said, bytes_said, of_half, entry_of, half_bytes, ComparedRight};

use crate::searchable::Searchable;
use crate::{Listed, SubFunction};
use dtc::status::{DtcRecord, DtcStatusMask};
use wire::refusal::Refusal;
use wire::write::put_bytes;

// Why two listings are not compared: the first one is refused, or the second one, or the room.
#[derive(Clone, Copy, Debug, PartialEq, Eq)]
pub enum ChangesRefusal {
    First(Refusal),
    Second(Refusal),
    Room(Refusal),
}

// What is listed of a record: its code, and the status in each listing that has it.
#[derive(Clone, Copy)]
enum Entry {
    Gone {
        code: DtcRecord,
        old: DtcStatusMask,
    },
    Differs {
        code: DtcRecord,
        old: DtcStatusMask,
        new: DtcStatusMask,
    },
    New {
        code: DtcRecord,
        new: DtcStatusMask,
    },
}

// Of which listing the records are that are looked for in the other.
// An enum, and no closure for the step: where a contract says `half`, it would have to say the closure's law.
#[derive(Clone, Copy)]
enum Half {
    First,
    Second,
}

// Whether the code of the record at place k stood before it.
fn stood_before(listing: &Searchable, k: usize) -> bool
    requires { k < listing.now.records.count }
    ensures { result ≡ ltb 0 (count (has_code (listed_at listing.now.records k).code) (take k (searched listing.now))) }
{
    match listing.find(listing.records.at(k).code) {
        Some((place, _)) => place < k,
        None => false,
    }
}

// The place of the first record whose code stood before it.
fn first_repeated(listing: &Searchable) -> Option<usize>
    ensures { MatchOption result (first_repeated (searched listing.now) ≡ listing.now.records.count) (λ k. (first_repeated (searched listing.now) ≡ k) × (k < listing.now.records.count)) }
{
    for place in 0..listing.records.count {
        if stood_before(listing, place) {
            return Some(place);
        }
    }
    None
}

// A listing in which no code stands twice: the refusals are those of reading, then 17 with the place of the first record whose code stood before it.
fn once<'a>(sub: SubFunction, s: &'a [u8]) -> Result<Searchable<'a>, Refusal>
    ensures { searched_said result ≡ read_for_changes (sub_of sub) s.now }
{
    let listing = Searchable::of(sub, s)?;
    match first_repeated(&listing) {
        Some(place) => Err(Refusal::Repeated { place }),
        None => Ok(listing),
    }
}

// The availability mask of such a listing and how many records there are, or the refusal.
pub fn read_once(sub: SubFunction, s: &[u8]) -> Result<(DtcStatusMask, usize), Refusal>
    ensures { head_said result ≡ head_of (read_for_changes (sub_of sub) s.now) }
{
    Ok(once(sub, s)?.records.head())
}

// Whether two records of one code are the same: in status, in the mark, in severity and in functional unit. `same_record` of the paper does not look at the code, so no derived `==`.
fn same_record(a: Listed, b: Listed) -> bool
    ensures { result ≡ same_record (listed_of a) (listed_of b) }
{
    (a.status, a.known, a.severity, a.functional_unit)
        == (b.status, b.known, b.severity, b.functional_unit)
}

// What is listed of a record of the first listing, by what the second has of its code: that it is gone, or that it differs, where it does.
fn of_first(r: Listed, found: Option<(usize, Listed)>) -> Option<Entry>
    ensures { entries_said result ≡ of_first (listed_of r) (found_said found) }
{
    let code = r.code;
    let old = r.status;
    match found {
        None => Some(Entry::Gone { code, old }),
        Some((_, q)) => {
            if same_record(r, q) {
                return None;
            }
            Some(Entry::Differs {
                code,
                old,
                new: q.status,
            })
        }
    }
}

// And of a record of the second, by what the first has: that it is new.
fn of_second(r: Listed, found: Option<(usize, Listed)>) -> Option<Entry>
    ensures { entries_said result ≡ of_second (listed_of r) (found_said found) }
{
    match found {
        None => Some(Entry::New {
            code: r.code,
            new: r.status,
        }),
        Some(_) => None,
    }
}

impl Half {
    fn entry(self, r: Listed, found: Option<(usize, Listed)>) -> Option<Entry>
        ensures { entries_said result ≡ of_half self (listed_of r) (found_said found) }
    {
        match self {
            Half::First => of_first(r, found),
            Half::Second => of_second(r, found),
        }
    }
}

// An entry's kind, code, old status and new one, 0 where it has none.
fn six(kind: u8, code: DtcRecord, old: u8, new: u8) -> [u8; 6]
    ensures { result ≡ kind ∷ trouble_code_bytes (code_of code) ++ (old ∷ new ∷ []) }
{
    let high = code.high_byte();
    let middle = code.middle_byte();
    let low = code.low_byte();
    [kind, high, middle, low, old, new]
}

impl Entry {
    fn bytes(self) -> [u8; 6]
        ensures { result ≡ entry_bytes (entry_said self) }
    {
        match self {
            Entry::Gone { code, old } => six(1, code, old.bits(), 0),
            Entry::Differs { code, old, new } => six(2, code, old.bits(), new.bits()),
            Entry::New { code, new } => six(3, code, 0, new.bits()),
        }
    }
}

// How many bytes an entry has, where there is one.
fn entry_len(e: Option<Entry>) -> usize
    ensures len { result ≡ length (bytes_said e) }
    ensures few { result ≤ 6 }
{
    match e {
        Some(_) => 6,
        None => 0,
    }
}

// Its bytes, none where there is no entry.
fn put_entry(e: Option<Entry>, out: &mut [u8]) -> Result<usize, Refusal>
    ensures { Wrote (accepted (bytes_said e)) out.old result out.new }
{
    match e {
        Some(entry) => put_bytes(&entry.bytes(), out),
        None => Ok(0),
    }
}

// What is listed of the record at place k of one listing, against the other.
fn entry_at(half: Half, listing: &Searchable, k: usize, other: &Searchable) -> Option<Entry>
    requires { k < listing.now.records.count }
    ensures { bytes_said result ≡ entry_of half (searched other.now) (listed_at listing.now.records k) }
{
    let listed = listing.records.at(k);
    half.entry(listed, other.find(listed.code))
}

// How many bytes are listed of the records of one listing, against the other.
fn half_len(half: Half, listing: &Searchable, other: &Searchable) -> usize
    ensures len { result ≡ length (half_bytes half (searched other.now) (searched listing.now)) }
    ensures few { result ≤ 6 * 4096 }
{
    let mut len = 0;
    for k in 0..listing.records.count {
        len += entry_len(entry_at(half, listing, k, other));
    }
    len
}

// Lists them from the start of a room that is large enough.
fn put_half(half: Half, listing: &Searchable, other: &Searchable, out: &mut [u8])
    requires { length (half_bytes half (searched other.now) (searched listing.now)) ≤ length out.old }
    ensures { Filled (half_bytes half (searched other.now) (searched listing.now)) out.old out.new }
{
    let mut at = 0;
    for k in 0..listing.records.count {
        let e = entry_at(half, listing, k, other);
        // There is room for every entry: none is refused, and the answer is dropped.
        let _ = put_entry(e, &mut out[at..]);
        at += entry_len(e);
    }
}

// What changed between two listings: of the first one's records what is gone and what differs, then of the second's what is new. 7 where the room is too small.
fn put_changes(old: &Searchable, new: &Searchable, out: &mut [u8]) -> Result<usize, Refusal>
    ensures { Wrote (accepted (entries_bytes (changes (searched old.now) (searched new.now)))) out.old result out.new }
{
    let first = half_len(Half::First, old, new);
    let needed = first + half_len(Half::Second, new, old);
    let room = out.len();
    if room < needed {
        return Err(Refusal::NoRoom { needed, room });
    }
    put_half(Half::First, old, new, out);
    put_half(Half::Second, new, old, &mut out[first..]);
    Ok(needed)
}

// What changed between two listings, as entries of 6 bytes: in the first's order the codes that are gone and those whose record differs, then in the second's order those that are new.
// The refusals of the first listing come before the second's: those of reading, then 17; after both 7. A refused call changes nothing.
pub fn listing_changes(
    first_sub: SubFunction,
    first: &[u8],
    second_sub: SubFunction,
    second: &[u8],
    out: &mut [u8],
) -> Result<usize, ChangesRefusal>
    ensures { ComparedRight (compared (sub_of first_sub) first.now (sub_of second_sub) second.now out.old) result out.new }
{
    let old = once(first_sub, first).map_err(ChangesRefusal::First)?;
    let new = once(second_sub, second).map_err(ChangesRefusal::Second)?;
    put_changes(&old, &new, out).map_err(ChangesRefusal::Room)
}
