// Trouble-code listings, the answer to ISO 14229-1 ReadDTCInformation: read, written, and with an index beside them. Document 02 asks for them; the original has none.
// A listing stays in its message: the answer byte, the sub-function and the availability mask, then the records, one after the other. The sub-function says in which of two forms they are.
#![tactic(auto)]

pub mod changes;
mod handed;
pub mod index;
mod records;
mod searchable;
pub mod write;

ghost use Rattle.std.specs.Prelude.{◌≡◌, ◌+◌, ◌*◌, ◌<◌, ◌≤◌, length, drop, Ok};
ghost use Rattle.paper.specs.Answer.{accepted};
ghost use Rattle.paper.specs.Listing.{by_status_mask, by_severity_mask, sub_function_byte, record_size, record_of, read_listing, head_of, record_at};
ghost use Rattle.paper.specs.ListingProgram.{sub_function_said};
ghost use Rattle.listing.specs.Listing.{sub_of, listed_of, head_said, record_said};
ghost use Rattle.listing.specs.Records.{listed_at, listing_of, read_said};

use crate::records::Records;
use dtc::status::{DtcRecord, DtcSeverityMask, DtcStatusMask};
use wire::refusal::Refusal;

// Which question a listing answers, and with it a record's form.
#[derive(Clone, Copy, Debug, PartialEq, Eq)]
pub enum SubFunction {
    // 0x02: three code bytes and a status byte.
    ByStatusMask,
    // 0x08: severity and functional unit, then these.
    BySeverityMask,
}

// A record: whether severity and functional unit are known, these two, a code and its status. Unknown ones are read as 0.
// A flag beside them, and no `Option`: `put_record` writes the two bytes of a record whose flag is false, too, whatever they are.
#[derive(Clone, Copy)]
pub struct Listed {
    pub known: bool,
    pub severity: DtcSeverityMask,
    pub functional_unit: u8,
    pub code: DtcRecord,
    pub status: DtcStatusMask,
}

impl SubFunction {
    // The byte after the answer byte. A method, and no `From`: its name says which number of the sub-function it is.
    pub fn byte(self) -> u8
        ensures { result ≡ sub_function_byte (sub_of self) }
    {
        match self {
            SubFunction::ByStatusMask => 0x02,
            SubFunction::BySeverityMask => 0x08,
        }
    }

    // How many bytes a record has.
    fn record_size(self) -> usize
        ensures size { result ≡ record_size (sub_of self) }
        ensures some { 0 < result }
        ensures few { result ≤ 6 }
    {
        match self {
            SubFunction::ByStatusMask => 4,
            SubFunction::BySeverityMask => 6,
        }
    }
}

// The sub-function that a listing says itself: 0x08 in its second byte; else it is taken for 0x02, whose reader refuses what is neither.
pub fn sub_function_said(s: &[u8]) -> SubFunction
    ensures { sub_of result ≡ sub_function_said s.now }
{
    match s.get(1) {
        Some(0x08) => SubFunction::BySeverityMask,
        _ => SubFunction::ByStatusMask,
    }
}

// The record whose four bytes begin here.
fn four_at(s: &[u8], at: usize) -> Listed
    requires { at + 4 ≤ length s.now }
    ensures { listed_of result ≡ record_of by_status_mask (drop at s.now) }
{
    Listed {
        known: false,
        severity: DtcSeverityMask::from_bits(0),
        functional_unit: 0,
        code: DtcRecord::new(s[at], s[at + 1], s[at + 2]),
        status: DtcStatusMask::from_bits(s[at + 3]),
    }
}

// The record whose six bytes begin here.
fn six_at(s: &[u8], at: usize) -> Listed
    requires { at + 6 ≤ length s.now }
    ensures { listed_of result ≡ record_of by_severity_mask (drop at s.now) }
{
    Listed {
        known: true,
        severity: DtcSeverityMask::from_bits(s[at]),
        functional_unit: s[at + 1],
        code: DtcRecord::new(s[at + 2], s[at + 3], s[at + 4]),
        status: DtcStatusMask::from_bits(s[at + 5]),
    }
}

impl<'a> Records<'a> {
    // 1 for fewer than 3 bytes, 15 for wrong first bytes, 12 for more than 4,096 whole records, 10 for a cut one. No record is good.
    pub(crate) fn of(sub: SubFunction, message: &'a [u8]) -> Result<Records<'a>, Refusal>
        ensures { read_said result ≡ read_listing (sub_of sub) message.now }
    {
        let available = message.len();
        if available < 3 {
            return Err(Refusal::TooShort {
                needed: 3,
                available,
            });
        }
        if message[0] != 0x59 {
            return Err(Refusal::UnknownService { place: 0 });
        }
        if message[1] != sub.byte() {
            return Err(Refusal::UnknownService { place: 0 });
        }
        let size = sub.record_size();
        let count = (available - 3) / size;
        if 4096 < count {
            return Err(Refusal::TooMany);
        }
        if (available - 3) % size != 0 {
            return Err(Refusal::Cut);
        }
        Ok(Records {
            sub,
            message,
            count,
        })
    }

    // The availability mask, and how many records there are.
    pub(crate) fn head(&self) -> (DtcStatusMask, usize)
        ensures { head_said (Ok result) ≡ head_of (accepted (listing_of self.now)) }
    {
        (DtcStatusMask::from_bits(self.message[2]), self.count)
    }

    // The record at a place that has one.
    pub(crate) fn at(&self, place: usize) -> Listed
        requires { place < self.now.count }
        ensures { listed_of result ≡ listed_at self.now place }
    {
        match self.sub {
            SubFunction::ByStatusMask => four_at(self.message, 3 + 4 * place),
            SubFunction::BySeverityMask => six_at(self.message, 3 + 6 * place),
        }
    }
}

// The availability mask and how many records there are, or why it is no listing.
pub fn read_listing(sub: SubFunction, s: &[u8]) -> Result<(DtcStatusMask, usize), Refusal>
    ensures { head_said result ≡ head_of (read_listing (sub_of sub) s.now) }
{
    Ok(Records::of(sub, s)?.head())
}

// The record at this place, counted from 0: nothing past the last one, and nothing of a listing that is refused.
pub fn record_at(sub: SubFunction, s: &[u8], place: usize) -> Option<Listed>
    ensures { record_said result ≡ record_at place (read_listing (sub_of sub) s.now) }
{
    let records = Records::of(sub, s).ok()?;
    if place < records.count {
        Some(records.at(place))
    } else {
        None
    }
}
