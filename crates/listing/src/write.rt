// Listings, written from records that are handed over as seven bytes each: a mark, severity, functional unit, three code bytes and a status byte. A mark of 0 says that
// severity and functional unit are unknown, whatever the two bytes are; any other that they are known.
ghost use Rattle.std.specs.Prelude.{◌≡◌, [], ◌∷◌, ◌*◌, ◌<◌, drop, MatchOption};
ghost use Rattle.paper.specs.Answer.{accepted};
ghost use Rattle.paper.specs.Listing.{sub_function_byte, record_bytes, answer_byte, records_bytes, listing, listing_bytes, first_place, unfit, handed_of, write_handed};
ghost use Rattle.wire.specs.Writing.{Wrote};
ghost use Rattle.listing.specs.Listing.{sub_of, listed_of};
ghost use Rattle.listing.specs.Handed.{listed_in, HandedRight};

use crate::handed::Handed;
use crate::{Listed, SubFunction};
use dtc::status::{DtcRecord, DtcSeverityMask, DtcStatusMask};
use wire::refusal::Refusal;
use wire::write::put_bytes;

// The answer byte, the sub-function and the mask.
pub fn put_head(sub: SubFunction, mask: DtcStatusMask, out: &mut [u8]) -> Result<usize, Refusal>
    ensures { Wrote (accepted (answer_byte ∷ sub_function_byte (sub_of sub) ∷ mask.bits ∷ [])) out.old result out.new }
{
    put_bytes(&[0x59, sub.byte(), mask.bits()], out)
}

// A record in the form of the sub-function. Whether its severity is known is not judged.
pub fn put_record(sub: SubFunction, listed: Listed, out: &mut [u8]) -> Result<usize, Refusal>
    ensures { Wrote (accepted (record_bytes (sub_of sub) (listed_of listed))) out.old result out.new }
{
    let code = listed.code;
    let high = code.high_byte();
    let middle = code.middle_byte();
    let low = code.low_byte();
    let status = listed.status.bits();
    let severity = listed.severity.bits();
    let unit = listed.functional_unit;
    match sub {
        SubFunction::ByStatusMask => put_bytes(&[high, middle, low, status], out),
        SubFunction::BySeverityMask => {
            put_bytes(&[severity, unit, high, middle, low, status], out)
        }
    }
}

// Whether a record can't be written so: of 0x02 one with known severity, of 0x08 one without.
fn is_unfit(sub: SubFunction, listed: Listed) -> bool
    ensures { result ≡ unfit (sub_of sub) (listed_of listed) }
{
    match sub {
        SubFunction::ByStatusMask => listed.known,
        SubFunction::BySeverityMask => !listed.known,
    }
}

impl<'a> Handed<'a> {
    // 12 for more than 4,096 whole records, then 10 where they do not fill their list.
    fn of(bytes: &'a [u8]) -> Result<Handed<'a>, Refusal>
        ensures { HandedRight bytes.now result }
    {
        let count = bytes.len() / 7;
        if 4096 < count {
            return Err(Refusal::TooMany);
        }
        if bytes.len() % 7 != 0 {
            return Err(Refusal::Cut);
        }
        Ok(Handed { bytes, count })
    }

    // The record at a place that has one.
    fn at(&self, place: usize) -> Listed
        requires { place < self.now.count }
        ensures { listed_of result ≡ handed_of (drop (7 * place) self.now.bytes.now) }
    {
        let bytes = self.bytes;
        let at = 7 * place;
        let code = DtcRecord::new(bytes[at + 3], bytes[at + 4], bytes[at + 5]);
        let status = DtcStatusMask::from_bits(bytes[at + 6]);
        if bytes[at] == 0 {
            return Listed {
                known: false,
                severity: DtcSeverityMask::from_bits(0),
                functional_unit: 0,
                code,
                status,
            };
        }
        Listed {
            known: true,
            severity: DtcSeverityMask::from_bits(bytes[at + 1]),
            functional_unit: bytes[at + 2],
            code,
            status,
        }
    }

    // The place of the first record that can't be written so.
    fn first_unfit(&self, sub: SubFunction) -> Option<usize>
        ensures { MatchOption result (first_place (unfit (sub_of sub)) (listed_in self.now) ≡ self.now.count) (λ k. (first_place (unfit (sub_of sub)) (listed_in self.now) ≡ k) × (k < self.now.count)) }
    {
        for place in 0..self.count {
            if is_unfit(sub, self.at(place)) {
                return Some(place);
            }
        }
        None
    }

    // The records, one after the other.
    fn put_records(&self, sub: SubFunction, out: &mut [u8]) -> Result<usize, Refusal>
        ensures { Wrote (accepted (records_bytes (sub_of sub) (listed_in self.now))) out.old result out.new }
    {
        let size = sub.record_size();
        let needed = size * self.count;
        let room = out.len();
        if room < needed {
            return Err(Refusal::NoRoom { needed, room });
        }
        for k in 0..self.count {
            // The room was checked first, so that a refused write changes nothing: now no part is refused, and the answers are dropped, here and below.
            let _ = put_record(sub, self.at(k), &mut out[size * k..]);
        }
        Ok(needed)
    }

    // The listing of the records.
    fn put_listing(
        &self,
        sub: SubFunction,
        mask: DtcStatusMask,
        out: &mut [u8],
    ) -> Result<usize, Refusal>
        ensures { Wrote (accepted (listing_bytes (listing (sub_of sub) mask.bits (listed_in self.now)))) out.old result out.new }
    {
        let needed = 3 + sub.record_size() * self.count;
        let room = out.len();
        if room < needed {
            return Err(Refusal::NoRoom { needed, room });
        }
        let _ = put_head(sub, mask, out);
        let _ = self.put_records(sub, &mut out[3..]);
        Ok(needed)
    }
}

// A listing with this mask and these records: 12 for more than 4,096 whole ones, then 10 where they do not fill their list, then 11 with the place of the first that can't be
// written so, then 7. A refused write changes nothing.
pub fn write_listing(
    sub: SubFunction,
    mask: DtcStatusMask,
    records: &[u8],
    out: &mut [u8],
) -> Result<usize, Refusal>
    ensures { Wrote (write_handed (sub_of sub) mask.bits records.now) out.old result out.new }
{
    let handed = Handed::of(records)?;
    match handed.first_unfit(sub) {
        Some(place) => Err(Refusal::OutOfRange { place }),
        None => handed.put_listing(sub, mask, out),
    }
}
