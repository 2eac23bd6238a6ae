// Constants and tables: the letters p and r.
ghost use Rattle.io.specs.Counts.{IsPrefixLen};

use dtc::status::{DtcRecord, DtcSeverityMask, DtcStatusMask, Mask};
use oracle_text::text::{put_hex, put_numbers};
use routine_control::nack::{
    request_file_transfer_allowed_nack_codes, routine_control_allowed_nack_codes,
};

// The record that stands for all codes, and how many bytes a record has.
fn put_code_constants(out: &mut [u8], at: usize) -> usize
    ensures { IsPrefixLen result out.new }
{
    let all = DtcRecord::CLEAR_ALL_DTCS;
    let numbers = [
        u64::from(all.high_byte()),
        u64::from(all.middle_byte()),
        u64::from(all.low_byte()),
        DtcRecord::WIRE_SIZE as u64,
    ];
    put_numbers(&numbers, out, at)
}

// The bits of eight masks.
fn put_named<Names>(named: [Mask<Names>; 8], out: &mut [u8], at: usize) -> usize
    ensures { IsPrefixLen result out.new }
{
    put_numbers(&named.map(|mask| u64::from(mask.bits())), out, at)
}

const STATUS_NAMES: [DtcStatusMask; 8] = [
    DtcStatusMask::TestFailed,
    DtcStatusMask::TestFailedThisOperationCycle,
    DtcStatusMask::PendingDtc,
    DtcStatusMask::ConfirmedDtc,
    DtcStatusMask::TestNotCompletedSinceLastClear,
    DtcStatusMask::TestFailedSinceLastClear,
    DtcStatusMask::TestNotCompletedThisOperationCycle,
    DtcStatusMask::WarningIndicatorRequested,
];

const SEVERITY_NAMES: [DtcSeverityMask; 8] = [
    DtcSeverityMask::DtcClass0,
    DtcSeverityMask::DtcClass1,
    DtcSeverityMask::DtcClass2,
    DtcSeverityMask::DtcClass3,
    DtcSeverityMask::DtcClass4,
    DtcSeverityMask::MaintenanceOnly,
    DtcSeverityMask::CheckAtNextHalt,
    DtcSeverityMask::CheckImmediately,
];

// Of trouble codes by 0, of the status mask by 1, of the severity mask by 2.
pub(crate) fn put_constants(b: u8, out: &mut [u8], at: usize) -> usize
    ensures { IsPrefixLen result out.new }
{
    match b {
        0 => put_code_constants(out, at),
        1 => put_named(STATUS_NAMES, out, at),
        2 => put_named(SEVERITY_NAMES, out, at),
        _ => 0,
    }
}

// The negative codes of routine control by 0, of file transfer by 1.
pub(crate) fn put_negative_codes(b: u8, out: &mut [u8], at: usize) -> usize
    ensures { IsPrefixLen result out.new }
{
    match b {
        0 => put_hex(&routine_control_allowed_nack_codes(), out, at),
        1 => put_hex(&request_file_transfer_allowed_nack_codes(), out, at),
        _ => 0,
    }
}
