// Status and severity masks: the letters a to e.
ghost use Rattle.std.specs.Prelude.{◌≡◌, length};
ghost use Rattle.io.specs.Counts.{IsPrefixLen};

use dtc::status::{DtcSeverityMask, DtcStatusMask, Mask};
use oracle_text::text::{put, put_hex, put_numbers};

// The bits, and the eight questions.
pub(crate) fn put_status(b: u8, out: &mut [u8], at: usize) -> usize
    ensures { IsPrefixLen result out.new }
{
    let m = DtcStatusMask::from_bits(b);
    let numbers = [
        u64::from(m.bits()),
        u64::from(m.test_failed()),
        u64::from(m.test_failed_this_operation_cycle()),
        u64::from(m.pending_dtc()),
        u64::from(m.confirmed_dtc()),
        u64::from(m.test_not_completed_since_last_clear()),
        u64::from(m.test_failed_since_last_clear()),
        u64::from(m.test_not_completed_this_operation_cycle()),
        u64::from(m.warning_indicator_requested()),
    ];
    put_numbers(&numbers, out, at)
}

// The bits, the eight questions, and whether it is valid.
pub(crate) fn put_severity(b: u8, out: &mut [u8], at: usize) -> usize
    ensures { IsPrefixLen result out.new }
{
    let m = DtcSeverityMask::from_bits(b);
    let numbers = [
        u64::from(m.bits()),
        u64::from(m.dtc_class_0()),
        u64::from(m.dtc_class_1()),
        u64::from(m.dtc_class_2()),
        u64::from(m.dtc_class_3()),
        u64::from(m.dtc_class_4()),
        u64::from(m.maintenance_only()),
        u64::from(m.check_at_next_halt()),
        u64::from(m.check_immediately()),
        u64::from(m.is_valid()),
    ];
    put_numbers(&numbers, out, at)
}

// What becomes of each byte, from 0 to 255.
fn row<F: Fn(u8) -> u8>(joined: F) -> [u8; 256]
    requires { F.IsAlwaysCallable joined }
    ensures { 256 ≡ length result }
{
    std::array::from_fn(|b| joined(b as u8))
}

// The bits of the mask or of each byte, and those of both. Status and severity masks are joined alike.
pub(crate) fn put_joined<Names: Copy>(mask: Mask<Names>, out: &mut [u8], at: usize) -> usize
    ensures { IsPrefixLen result out.new }
{
    let either = row(|b| mask.union(Mask::from_bits(b)).bits());
    let both = row(|b| mask.intersection(Mask::from_bits(b)).bits());
    let end = put_hex(&either, out, at);
    put_hex(&both, out, end)
}

// Whether it matches each byte, a digit each.
pub(crate) fn put_matching(b: u8, out: &mut [u8], at: usize) -> usize
    ensures { IsPrefixLen result out.new }
{
    let mask = DtcStatusMask::from_bits(b);
    let digits = row(|b| b'0' + u8::from(mask.matches(DtcStatusMask::from_bits(b))));
    let end = put(b" ", out, at);
    put(&digits, out, end)
}
