// The index beside a listing: for each of the 256 high bytes, how many records have it and the place of the first, 0 where there is none. And codes, looked up by it.
// Two arrays of fixed size, and no map: the libraries use no heap, and C is handed an index, and hands it back, as these.
ghost use Rattle.std.specs.Prelude.{◌≡◌, ◌<◌};
ghost use Rattle.paper.specs.Listing.{read_listing, index_of, zero_index, own_index, find, look_up};
ghost use Rattle.dtc.specs.Status.{code_of};
ghost use Rattle.listing.specs.Listing.{sub_of};
ghost use Rattle.listing.specs.Records.{listed_in, listed_at};
ghost use Rattle.listing.specs.Index.{index_said, numbers_in, IndexedRight, found_said, look_said};
ghost use Rattle.listing.specs.Searchable.{searched, searched_said};

use crate::records::Records;
use crate::searchable::Searchable;
use crate::{Listed, SubFunction};
use dtc::status::{DtcRecord, DtcStatusMask};
use wire::refusal::Refusal;

// Counts and first places, by high byte.
#[derive(Clone, Copy)]
pub struct Index {
    pub counts: [u32; 256],
    pub firsts: [u32; 256],
}

// What reading the listing says, and its index. No `Result` of an index: `IndexedRight` promises all zeros beside a refusal, and C reads them.
#[derive(Clone, Copy)]
pub struct Indexed {
    pub listing: Result<(DtcStatusMask, usize), Refusal>,
    pub index: Index,
}

// The high byte of the record at a place that has one.
fn high_at(records: &Records, place: usize) -> usize
    requires { place < records.now.count }
    ensures value { result ≡ (listed_at records.now place).code.high }
    ensures byte { result < 256 }
{
    usize::from(records.at(place).code.high_byte())
}

impl Index {
    // The index of a listing's records, in one pass.
    fn of(records: &Records) -> Index
        ensures { index_said result ≡ index_of (listed_in records.now) }
    {
        let mut counts = [0u32; 256];
        let mut firsts = [0u32; 256];
        for k in 0..records.count {
            let h = high_at(records, k);
            if counts[h] == 0 {
                firsts[h] = k as u32;
            }
            counts[h] += 1;
        }
        Index { counts, firsts }
    }
}

// The index of a listing, or why it is none: the refusals are those of reading.
pub fn index_listing(sub: SubFunction, s: &[u8]) -> Indexed
    ensures { IndexedRight (read_listing (sub_of sub) s.now) result }
{
    match Records::of(sub, s) {
        Ok(records) => Indexed {
            listing: Ok(records.head()),
            index: Index::of(&records),
        },
        Err(e) => Indexed {
            listing: Err(e),
            index: Index {
                counts: [0; 256],
                firsts: [0; 256],
            },
        },
    }
}

impl<'a> Searchable<'a> {
    // The refusals are those of reading.
    pub(crate) fn of(sub: SubFunction, message: &'a [u8]) -> Result<Searchable<'a>, Refusal>
        ensures { searched_said result ≡ read_listing (sub_of sub) message.now }
    {
        let records = Records::of(sub, message)?;
        let index = Index::of(&records);
        Ok(Searchable { records, index })
    }

    // Whether these are its counts and first places, all 256 of each.
    fn owns(&self, counts: &[u32], firsts: &[u32]) -> bool
        ensures { result ≡ own_index (searched self.now) (numbers_in counts.now firsts.now) }
    {
        counts == self.index.counts.as_slice() && firsts == self.index.firsts.as_slice()
    }

    // The first record that has the code, and its place. It is searched from the first record with its high byte on, until the count of that byte is used up.
    pub(crate) fn find(&self, code: DtcRecord) -> Option<(usize, Listed)>
        ensures { found_said result ≡ find 0 (code_of code) (searched self.now) }
    {
        let high = usize::from(code.high_byte());
        let mut left = self.index.counts[high];
        if left == 0 {
            return None;
        }
        for k in self.index.firsts[high] as usize..self.records.count {
            let listed = self.records.at(k);
            if listed.code == code {
                return Some((k, listed));
            }
            if listed.code.high_byte() == code.high_byte() {
                left -= 1;
                if left == 0 {
                    return None;
                }
            }
        }
        None
    }
}

// The first record that has the code, and its place. The refusals are those of reading, then 11 for counts and first places that are not this listing's own, then 16 exactly if
// no record has the code. These are lists of any length, as C hands them over: an index of another length is refused, too. Every lookup makes the index anew to compare it: an index of another listing would find another record.
pub fn look_up(
    sub: SubFunction,
    s: &[u8],
    counts: &[u32],
    firsts: &[u32],
    code: DtcRecord,
) -> Result<(usize, Listed), Refusal>
    ensures { look_said result ≡ look_up (sub_of sub) s.now (numbers_in counts.now firsts.now) (code_of code) }
{
    let listing = Searchable::of(sub, s)?;
    if !listing.owns(counts, firsts) {
        return Err(Refusal::OutOfRange { place: 0 });
    }
    listing.find(code).ok_or(Refusal::NoSuchCode)
}
