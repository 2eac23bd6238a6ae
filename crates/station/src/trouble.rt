// Names and trouble codes.
ghost use Rattle.std.specs.Prelude.{◌≡◌, length};
ghost use Rattle.paper.specs.Answer.{accepted};
ghost use Rattle.paper.specs.Utf8.{Longest};
ghost use Rattle.paper.specs.TroubleCode.{from_number, next_trouble_code};
ghost use Rattle.dtc.specs.Status.{code_of};
ghost use Rattle.station.specs.Records.{code_record, next_record};
ghost use Rattle.station.specs.Flat.{accepted_next};

use crate::records::{NextTroubleCodeRecord, TroubleCodeRecord, flat};
use dtc::status::DtcRecord;
use utf8::valid_up_to;

// The length of the longest beginning of the name that is UTF-8.
#[unsafe(no_mangle)]
pub extern "C" fn skr_valid_up_to(name: &[u8]) -> u64
    ensures { Longest name.now result }
{
    valid_up_to(name) as u64
}

// The record of a code.
impl From<DtcRecord> for TroubleCodeRecord {
    ghost from_gives = { λ code r. r ≡ code_record (accepted (code_of code)) };

    fn from(code: DtcRecord) -> TroubleCodeRecord {
        TroubleCodeRecord {
            high: u64::from(code.high_byte()),
            middle: u64::from(code.middle_byte()),
            low: u64::from(code.low_byte()),
            ..TroubleCodeRecord::default()
        }
    }
}

#[unsafe(no_mangle)]
pub extern "C" fn skr_dtc_from_number(number: u32) -> TroubleCodeRecord
    ensures { result ≡ code_record (from_number number) }
{
    flat(DtcRecord::try_from(number))
}

// The record of the next code of a list and of where the list goes on; at the end of the list there is none.
impl From<Option<(DtcRecord, usize)>> for NextTroubleCodeRecord {
    ghost from_gives = { λ next r. r ≡ accepted_next next };

    fn from(next: Option<(DtcRecord, usize)>) -> NextTroubleCodeRecord {
        match next {
            Some((code, tail)) => NextTroubleCodeRecord {
                found: 1,
                high: u64::from(code.high_byte()),
                middle: u64::from(code.middle_byte()),
                low: u64::from(code.low_byte()),
                tail: tail as u64,
                ..NextTroubleCodeRecord::default()
            },
            None => NextTroubleCodeRecord::default(),
        }
    }
}

// The first trouble code of the buffer, and where the next one begins.
#[unsafe(no_mangle)]
pub extern "C" fn skr_dtc_next(buffer: &[u8]) -> NextTroubleCodeRecord
    ensures { result ≡ next_record (length buffer.now) (next_trouble_code buffer.now) }
{
    flat(DtcRecord::decode_next(buffer, 0))
}
