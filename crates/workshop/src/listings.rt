// Trouble-code listings: read, record by record, indexed, looked up, written. A sub-function that does not exist is 15, before anything else.
// The records are numbers and flags in a fixed layout, since C reads them.
ghost use Rattle.std.specs.Prelude.{◌≡◌, Ok};
ghost use Rattle.paper.specs.Answer.{refused};
ghost use Rattle.paper.specs.TroubleCode.{trouble_code};
ghost use Rattle.paper.specs.Listing.{head_of, look_up_in};
ghost use Rattle.wire.specs.Refusals.{row};
ghost use Rattle.dtc.specs.Status.{code_of};
ghost use Rattle.listing.specs.Listing.{listed_of, head_said, record_said};
ghost use Rattle.listing.specs.Index.{numbers_in, look_said};
ghost use Rattle.station.specs.Records.{WroteRecord};
ghost use Rattle.workshop.specs.Listings.{listing_sub, sub_said, listing_handed, write_sub_handed, listing_record, found_listed, place_record, refused_listed, placed_said, listed_record};
ghost use Rattle.workshop.specs.Listings.{flat_index, refused_index, index_record, found_look_up, look_up_record};

use dtc::status::{DtcRecord, DtcStatusMask};
use listing::index::{Indexed, index_listing, look_up};
use listing::write::write_listing;
use listing::{Listed, SubFunction, read_listing, record_at};
use station::records::{WrittenRecord, flat};
use wire::refusal::Refusal;

// The head of a listing: its availability mask, and how many records it has.
#[repr(C)]
#[derive(Clone, Copy, Default)]
pub struct ListingRecord {
    pub number: u64,
    pub first: u64,
    pub second: u64,
    pub mask: u64,
    pub count: u64,
}

// A record of a listing. `found` is 1, or 0 past the last record, and then the others are 0. `known` is 1 where severity and functional unit are known, else all three are 0.
#[repr(C)]
#[derive(Clone, Copy, Default)]
pub struct ListedRecord {
    pub number: u64,
    pub first: u64,
    pub second: u64,
    pub found: u64,
    pub known: u64,
    pub severity: u64,
    pub unit: u64,
    pub high: u64,
    pub middle: u64,
    pub low: u64,
    pub status: u64,
}

// The index of a listing: for each high byte how many records have it, and the place of the first.
#[repr(C)]
#[derive(Clone, Copy)]
pub struct IndexRecord {
    pub number: u64,
    pub first: u64,
    pub second: u64,
    pub counts: [u32; 256],
    pub firsts: [u32; 256],
}

// The record that has a code, and its place; `known` as above.
#[repr(C)]
#[derive(Clone, Copy, Default)]
pub struct LookUpRecord {
    pub number: u64,
    pub first: u64,
    pub second: u64,
    pub place: u64,
    pub known: u64,
    pub severity: u64,
    pub unit: u64,
    pub high: u64,
    pub middle: u64,
    pub low: u64,
    pub status: u64,
}

// The sub-function that a byte of C stands for.
// A function here, and no `TryFrom` in crate `listing`, whose calls take no byte for a sub-function: that any other byte is 15 is said of the doors, by `listing_sub`.
pub(crate) fn known_sub(sub: u8) -> Result<SubFunction, Refusal>
    ensures { sub_said result ≡ listing_sub «sub» }
{
    match sub {
        0x02 => Ok(SubFunction::ByStatusMask),
        0x08 => Ok(SubFunction::BySeverityMask),
        _ => Err(Refusal::UnknownService { place: 0 }),
    }
}

impl From<(DtcStatusMask, usize)> for ListingRecord {
    ghost from_gives = { λ x r. r ≡ listing_record (head_said (Ok x)) };

    fn from((mask, count): (DtcStatusMask, usize)) -> ListingRecord {
        ListingRecord {
            mask: u64::from(mask.bits()),
            count: count as u64,
            ..ListingRecord::default()
        }
    }
}

impl From<Refusal> for ListingRecord {
    ghost from_gives = { λ e r. r ≡ listing_record (refused (row e)) };

    fn from(e: Refusal) -> ListingRecord {
        ListingRecord {
            number: e.number() as u64,
            first: e.first() as u64,
            second: e.second() as u64,
            ..ListingRecord::default()
        }
    }
}

fn head_in(sub: u8, listing: &[u8]) -> Result<(DtcStatusMask, usize), Refusal>
    ensures { head_said result ≡ head_of (listing_handed «sub» listing.now) }
{
    read_listing(known_sub(sub)?, listing)
}

#[unsafe(no_mangle)]
pub extern "C" fn skr_read_listing(sub: u8, listing: &[u8]) -> ListingRecord
    ensures { result ≡ listing_record (head_of (listing_handed «sub» listing.now)) }
{
    flat(head_in(sub, listing))
}

// The record of one that stands there.
impl From<Listed> for ListedRecord {
    ghost from_gives = { λ listed r. r ≡ found_listed (listed_of listed) };

    fn from(listed: Listed) -> ListedRecord {
        ListedRecord {
            found: 1,
            known: u64::from(listed.known),
            severity: u64::from(listed.severity.bits()),
            unit: u64::from(listed.functional_unit),
            high: u64::from(listed.code.high_byte()),
            middle: u64::from(listed.code.middle_byte()),
            low: u64::from(listed.code.low_byte()),
            status: u64::from(listed.status.bits()),
            ..ListedRecord::default()
        }
    }
}

impl From<Option<Listed>> for ListedRecord {
    ghost from_gives = { λ found r. r ≡ place_record (record_said found) };

    fn from(found: Option<Listed>) -> ListedRecord {
        match found {
            Some(listed) => listed.into(),
            None => ListedRecord::default(),
        }
    }
}

impl From<Refusal> for ListedRecord {
    ghost from_gives = { λ e r. r ≡ refused_listed (row e) };

    fn from(e: Refusal) -> ListedRecord {
        ListedRecord {
            number: e.number() as u64,
            first: e.first() as u64,
            second: e.second() as u64,
            ..ListedRecord::default()
        }
    }
}

// It takes its door's own parameters: it is that door up to the record, so that `?` can leave it.
fn record_in(sub: u8, listing: &[u8], place: usize) -> Result<Option<Listed>, Refusal>
    ensures { placed_said result ≡ listed_record place (listing_handed «sub» listing.now) }
{
    let f = known_sub(sub)?;
    let _ = read_listing(f, listing)?;
    Ok(record_at(f, listing, place))
}

// The record at a place, counted from 0.
#[unsafe(no_mangle)]
pub extern "C" fn skr_listing_record(sub: u8, listing: &[u8], place: usize) -> ListedRecord
    ensures { result ≡ listed_record place (listing_handed «sub» listing.now) }
{
    flat(record_in(sub, listing, place))
}

impl From<Refusal> for IndexRecord {
    ghost from_gives = { λ e r. r ≡ refused_index (row e) };

    fn from(e: Refusal) -> IndexRecord {
        IndexRecord {
            number: e.number() as u64,
            first: e.first() as u64,
            second: e.second() as u64,
            counts: [0; 256],
            firsts: [0; 256],
        }
    }
}

impl From<Indexed> for IndexRecord {
    ghost from_gives = { λ x r. r ≡ flat_index x.listing x.index.counts x.index.firsts };

    fn from(x: Indexed) -> IndexRecord {
        let counts = x.index.counts;
        let firsts = x.index.firsts;
        match x.listing {
            Ok(_) => IndexRecord {
                number: 0,
                first: 0,
                second: 0,
                counts,
                firsts,
            },
            Err(e) => IndexRecord {
                counts,
                firsts,
                ..e.into()
            },
        }
    }
}

// The index beside a listing: all zeros beside a refusal.
#[unsafe(no_mangle)]
pub extern "C" fn skr_listing_index(sub: u8, listing: &[u8]) -> IndexRecord
    ensures { result ≡ index_record (listing_handed «sub» listing.now) }
{
    match known_sub(sub) {
        Ok(f) => index_listing(f, listing).into(),
        Err(e) => e.into(),
    }
}

impl From<(usize, Listed)> for LookUpRecord {
    ghost from_gives = { λ x r. r ≡ found_look_up x.0 (listed_of x.1) };

    fn from((place, listed): (usize, Listed)) -> LookUpRecord {
        let x = ListedRecord::from(listed);
        LookUpRecord {
            place: place as u64,
            known: x.known,
            severity: x.severity,
            unit: x.unit,
            high: x.high,
            middle: x.middle,
            low: x.low,
            status: x.status,
            ..LookUpRecord::default()
        }
    }
}

impl From<Refusal> for LookUpRecord {
    ghost from_gives = { λ e r. r ≡ look_up_record (refused (row e)) };

    fn from(e: Refusal) -> LookUpRecord {
        LookUpRecord {
            number: e.number() as u64,
            first: e.first() as u64,
            second: e.second() as u64,
            ..LookUpRecord::default()
        }
    }
}

// It takes its door's own parameters, the code in one: it is that door up to the record, so that `?` can leave it.
fn find_in(
    sub: u8,
    listing: &[u8],
    counts: &[u32],
    firsts: &[u32],
    code: DtcRecord,
) -> Result<(usize, Listed), Refusal>
    ensures { look_said result ≡ look_up_in (numbers_in counts.now firsts.now) (code_of code) (listing_handed «sub» listing.now) }
{
    look_up(known_sub(sub)?, listing, counts, firsts, code)
}

// The first record that has the code. Counts and first places are those of the listing's own index, 256 each, in two lists since C hands them over so.
#[unsafe(no_mangle)]
pub extern "C" fn skr_listing_lookup(
    sub: u8,
    listing: &[u8],
    counts: &[u32],
    firsts: &[u32],
    high: u8,
    middle: u8,
    low: u8,
) -> LookUpRecord
    ensures { result ≡ look_up_record (look_up_in (numbers_in counts.now firsts.now) (trouble_code high middle low) (listing_handed «sub» listing.now)) }
{
    let code = DtcRecord::new(high, middle, low);
    flat(find_in(sub, listing, counts, firsts, code))
}

// A listing from its mask and its records, seven bytes each: whether severity and functional unit are known, these two, three code bytes and a status byte.
#[unsafe(no_mangle)]
pub extern "C" fn skr_write_listing(
    sub: u8,
    mask: u8,
    records: &[u8],
    out: &mut [u8],
) -> WrittenRecord
    ensures { WroteRecord (write_sub_handed «sub» mask records.now) out.old result out.new }
{
    match known_sub(sub) {
        Ok(f) => flat(write_listing(f, DtcStatusMask::from_bits(mask), records, out)),
        Err(e) => e.into(),
    }
}
