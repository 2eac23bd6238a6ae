// Names and trouble codes.
ghost use Rattle.std.specs.Prelude.{◌≡◌, length};
ghost use Rattle.paper.specs.Utf8.{Longest};
ghost use Rattle.paper.specs.TroubleCode.{from_number, next_trouble_code};
ghost use Rattle.station.specs.Records.{code_record, next_record};

use station::records::{NextTroubleCodeRecord, TroubleCodeRecord};

// The length of the longest beginning of the name that is UTF-8.
#[unsafe(no_mangle)]
pub extern "C" fn skr_valid_up_to(name: &[u8]) -> u64
    ensures { Longest name.now result }
{
    station::trouble::skr_valid_up_to(name)
}

#[unsafe(no_mangle)]
pub extern "C" fn skr_dtc_from_number(number: u32) -> TroubleCodeRecord
    ensures { result ≡ code_record (from_number number) }
{
    station::trouble::skr_dtc_from_number(number)
}

// The first trouble code of the buffer, and where the next one begins.
#[unsafe(no_mangle)]
pub extern "C" fn skr_dtc_next(buffer: &[u8]) -> NextTroubleCodeRecord
    ensures { result ≡ next_record (length buffer.now) (next_trouble_code buffer.now) }
{
    station::trouble::skr_dtc_next(buffer)
}
