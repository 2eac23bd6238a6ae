// Bytes that have a name: the letters f to h and q.
ghost use Rattle.io.specs.Counts.{IsPrefixLen};

use dtc::status::{DtcFormatIdentifier, DtcStoredDataRecordNumber, FunctionalGroupIdentifier};
use oracle_text::answer::put_refused;
use oracle_text::text::put_numbers;
use routine_control::sub_function::RoutineControlSubFunction;

// Which format it is, counted from 0 in the order of the original's names, and its byte.
pub(crate) fn put_format(b: u8, out: &mut [u8], at: usize) -> usize
    ensures { IsPrefixLen result out.new }
{
    let f = DtcFormatIdentifier::from_byte(b);
    let name = match f {
        DtcFormatIdentifier::SaeJ2012DaDtcFormat00 => 0,
        DtcFormatIdentifier::Iso14229_1DtcFormat => 1,
        DtcFormatIdentifier::SaeJ1939_73DtcFormat => 2,
        DtcFormatIdentifier::Iso11992_4DtcFormat => 3,
        DtcFormatIdentifier::SaeJ2012DaDtcFormat04 => 4,
        DtcFormatIdentifier::IsoSaeReserved(_) => 5,
    };
    put_numbers(&[name, u64::from(f.value())], out, at)
}

// Which group it is, likewise, and its byte.
pub(crate) fn put_group(b: u8, out: &mut [u8], at: usize) -> usize
    ensures { IsPrefixLen result out.new }
{
    let g = FunctionalGroupIdentifier::from_byte(b);
    let name = match g {
        FunctionalGroupIdentifier::IsoSaeReserved(_) => 0,
        FunctionalGroupIdentifier::EmissionsSystemGroup => 1,
        FunctionalGroupIdentifier::SafetySystemGroup => 2,
        FunctionalGroupIdentifier::LegislativeSystemGroup(_) => 3,
        FunctionalGroupIdentifier::VobdSystem => 4,
    };
    put_numbers(&[name, u64::from(g.value())], out, at)
}

// The byte, and whether it is reserved.
pub(crate) fn put_record_number(b: u8, out: &mut [u8], at: usize) -> usize
    ensures { IsPrefixLen result out.new }
{
    let n = DtcStoredDataRecordNumber::new(b);
    put_numbers(&[u64::from(n.value()), u64::from(n.is_reserved())], out, at)
}

// The refusal, or its byte.
pub(crate) fn put_sub_function(b: u8, out: &mut [u8], at: usize) -> usize
    ensures { IsPrefixLen result out.new }
{
    match RoutineControlSubFunction::from_byte(b) {
        Ok(f) => put_numbers(&[0, 0, 0, u64::from(f.value())], out, at),
        Err(e) => put_refused(e, 1, out, at),
    }
}
