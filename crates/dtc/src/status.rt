// Trouble-code fields: the code and its number, status and severity masks, the names of formats and groups, the stored-data record number.
// A field is read at a place of the message, so that `at` stands beside it in each reader (docs/DIFFERENCES.md), and written at the start of the room that is lent for it.
ghost use Rattle.std.specs.Prelude.{◌≡◌, ◌/◌, ◌%◌, ◌<◌, eqb, [], ◌∷◌};
ghost use Rattle.std.specs.Int.Bits.{bit_and, bit_or};
ghost use Rattle.paper.specs.Answer.{accepted};
ghost use Rattle.paper.specs.TroubleCode.{trouble_code, wire_size, all_codes, number_of, from_number, trouble_code_bytes};
ghost use Rattle.paper.specs.TroubleCode.{matches, test_failed, test_failed_this_operation_cycle, pending_dtc, confirmed_dtc};
ghost use Rattle.paper.specs.TroubleCode.{test_not_completed_since_last_clear, test_failed_since_last_clear};
ghost use Rattle.paper.specs.TroubleCode.{test_not_completed_this_operation_cycle, warning_indicator_requested};
ghost use Rattle.paper.specs.TroubleCode.{dtc_class, maintenance_only, check_at_next_halt, check_immediately, severity_valid};
ghost use Rattle.paper.specs.TroubleCode.{group_of, format_of, reserved_record_number};
ghost use Rattle.wire.specs.Writing.{Wrote};
ghost use Rattle.dtc.specs.Status.{code_of, number_said, same_code, RecordRight, NextRight};
ghost use Rattle.dtc.specs.Status.{named, MaskRight, RecordNumberRight};
ghost use Rattle.dtc.specs.Status.{group_byte, GroupOf, GroupRight, format_byte, FormatOf};

use std::marker::PhantomData;
use wire::available::available_at;
use wire::number::byte_at;
use wire::refusal::Refusal;
use wire::write::{put_byte, put_bytes};

// ---- The trouble code.

// A trouble code: three bytes, high first.
#[derive(Clone, Copy, Debug, PartialEq, Eq)]
pub struct DtcRecord {
    high_byte: u8,
    middle_byte: u8,
    low_byte: u8,
}

impl DtcRecord {
    // How many bytes a record has in a message.
    pub const WIRE_SIZE: usize = 3;

    // The record that stands for all codes.
    pub const CLEAR_ALL_DTCS: DtcRecord = DtcRecord {
        high_byte: 0xFF,
        middle_byte: 0xFF,
        low_byte: 0xFF,
    };

    // What the paper says of the two, each asked by its name. Nobody calls this: its promise is the table.
    fn constants()
        ensures size { DtcRecord.WIRE_SIZE ≡ wire_size }
        ensures high { DtcRecord.CLEAR_ALL_DTCS.high_byte ≡ all_codes.high }
        ensures middle { DtcRecord.CLEAR_ALL_DTCS.middle_byte ≡ all_codes.middle }
        ensures low { DtcRecord.CLEAR_ALL_DTCS.low_byte ≡ all_codes.low }
    {}

    pub fn new(high_byte: u8, middle_byte: u8, low_byte: u8) -> DtcRecord
        ensures { code_of result ≡ trouble_code high_byte middle_byte low_byte }
    {
        DtcRecord {
            high_byte,
            middle_byte,
            low_byte,
        }
    }

    pub fn high_byte(self) -> u8
        ensures { result ≡ (code_of self).high }
    {
        self.high_byte
    }

    pub fn middle_byte(self) -> u8
        ensures { result ≡ (code_of self).middle }
    {
        self.middle_byte
    }

    pub fn low_byte(self) -> u8
        ensures { result ≡ (code_of self).low }
    {
        self.low_byte
    }

    // Whether two records are the same code, as `==` has it. docs/DIFFERENCES.md names it beside the original's `==`.
    pub fn equals(self, other: DtcRecord) -> bool
        ensures { result ≡ same_code (code_of self) (code_of other) }
    {
        self == other
    }

    // The two conversions by name, here and below: docs/DIFFERENCES.md names them beside the original's.
    pub fn from_u32(value: u32) -> Result<DtcRecord, Refusal>
        ensures { number_said result ≡ from_number value }
    {
        DtcRecord::try_from(value)
    }

    pub fn to_u32(self) -> u32
        ensures { result ≡ number_of (code_of self) }
    {
        u32::from(self)
    }

    // The record and where the next field begins. Fewer than three bytes from `at` on are refusal 1.
    pub fn decode(s: &[u8], at: usize) -> Result<(DtcRecord, usize), Refusal>
        ensures { RecordRight s.now at result }
    {
        let needed = DtcRecord::WIRE_SIZE;
        let available = available_at(s, at);
        if available < needed {
            return Err(Refusal::TooShort { needed, available });
        }
        Ok((DtcRecord::new(s[at], s[at + 1], s[at + 2]), at + needed))
    }

    // The next of a list of records: nothing where the message has ended at `at`, else as `decode` has it.
    pub fn decode_next(s: &[u8], at: usize) -> Result<Option<(DtcRecord, usize)>, Refusal>
        ensures { NextRight s.now at result }
    {
        if s.len() <= at {
            return Ok(None);
        }
        let (code, next) = DtcRecord::decode(s, at)?;
        Ok(Some((code, next)))
    }

    pub fn encode(self, out: &mut [u8]) -> Result<usize, Refusal>
        ensures { Wrote (accepted (trouble_code_bytes (code_of self))) out.old result out.new }
    {
        put_bytes(&[self.high_byte, self.middle_byte, self.low_byte], out)
    }
}

// The record of a number; above 0x00FFFFFF it is refusal 5 with the number.
impl TryFrom<u32> for DtcRecord {
    type Error = Refusal;

    ghost try_from_gives = { λ n r. number_said r ≡ from_number n };

    #[tactic(auto, unfolding(paper::specs::TroubleCode::from_number))]
    fn try_from(value: u32) -> Result<DtcRecord, Refusal> {
        let [above, high_byte, middle_byte, low_byte] = value.to_be_bytes();
        if above != 0 {
            return Err(Refusal::NoTroubleCode(value));
        }
        Ok(DtcRecord::new(high_byte, middle_byte, low_byte))
    }
}

// 65,536 times the high byte, 256 times the middle byte and the low byte, added up.
impl From<DtcRecord> for u32 {
    ghost from_gives = { λ c n. n ≡ number_of (code_of c) };

    fn from(code: DtcRecord) -> u32 {
        u32::from_be_bytes([0, code.high_byte, code.middle_byte, code.low_byte])
    }
}

// ---- Masks.

// A byte with a name for each bit. What the names are is `Names`, so that one sort of mask isn't taken for another.
#[derive(Clone, Copy, Debug, PartialEq, Eq)]
pub struct Mask<Names> {
    bits: u8,
    names: PhantomData<Names>,
}

// A mask as the value of a constant, where no function can be called.
macro_rules! mask {
    ($bits:literal) => {
        Mask {
            bits: $bits,
            names: PhantomData,
        }
    };
}

impl<Names> Mask<Names> {
    // Every byte is a mask.
    pub fn from_bits(bits: u8) -> Mask<Names>
        ensures { result.bits ≡ bits }
    {
        Mask {
            bits,
            names: PhantomData,
        }
    }

    pub fn bits(self) -> u8
        ensures { result ≡ self.bits }
    {
        self.bits
    }

    // Whether the one bit of `named` is set.
    fn has(self, named: Mask<Names>) -> bool
        requires { 0 < named.bits }
        ensures { result ≡ eqb (self.bits / named.bits % 2) 1 }
    {
        self.bits / named.bits % 2 == 1
    }

    // The bits of either mask.
    pub fn union(self, other: Mask<Names>) -> Mask<Names>
        ensures { result.bits ≡ bit_or self.bits other.bits }
    {
        Mask::from_bits(self.bits | other.bits)
    }

    // The bits that both masks have.
    pub fn intersection(self, other: Mask<Names>) -> Mask<Names>
        ensures { result.bits ≡ bit_and self.bits other.bits }
    {
        Mask::from_bits(self.bits & other.bits)
    }

    // The mask and where the next field begins. An empty rest is refusal 1.
    pub fn decode(s: &[u8], at: usize) -> Result<(Mask<Names>, usize), Refusal>
        ensures { MaskRight s.now at result }
    {
        let (bits, next) = byte_at(s, at)?;
        Ok((Mask::from_bits(bits), next))
    }

    pub fn encode(self, out: &mut [u8]) -> Result<usize, Refusal>
        ensures { Wrote (accepted (self.bits ∷ [])) out.old result out.new }
    {
        put_byte(self.bits, out)
    }
}

// ---- The status mask.

// The names of a status.
#[derive(Clone, Copy, Debug, PartialEq, Eq)]
pub struct Status;

// The status of a code, or a mask of statuses to look for.
pub type DtcStatusMask = Mask<Status>;

impl Mask<Status> {
    pub const TestFailed: DtcStatusMask = mask!(0x01);

    pub const TestFailedThisOperationCycle: DtcStatusMask = mask!(0x02);

    pub const PendingDtc: DtcStatusMask = mask!(0x04);

    pub const ConfirmedDtc: DtcStatusMask = mask!(0x08);

    pub const TestNotCompletedSinceLastClear: DtcStatusMask = mask!(0x10);

    pub const TestFailedSinceLastClear: DtcStatusMask = mask!(0x20);

    pub const TestNotCompletedThisOperationCycle: DtcStatusMask = mask!(0x40);

    pub const WarningIndicatorRequested: DtcStatusMask = mask!(0x80);

    // A question for each bit, by the name that the paper and the original have for it, here and of a severity: the test itself is `has`.
    // The last test failed.
    pub fn test_failed(self) -> bool
        ensures { result ≡ test_failed self.bits }
    {
        self.has(DtcStatusMask::TestFailed)
    }

    pub fn test_failed_this_operation_cycle(self) -> bool
        ensures { result ≡ test_failed_this_operation_cycle self.bits }
    {
        self.has(DtcStatusMask::TestFailedThisOperationCycle)
    }

    // A test failed, and no cycle without failure has been completed since.
    pub fn pending_dtc(self) -> bool
        ensures { result ≡ pending_dtc self.bits }
    {
        self.has(DtcStatusMask::PendingDtc)
    }

    // The fault was seen often enough to be stored.
    pub fn confirmed_dtc(self) -> bool
        ensures { result ≡ confirmed_dtc self.bits }
    {
        self.has(DtcStatusMask::ConfirmedDtc)
    }

    // No test has been completed since the codes were cleared.
    pub fn test_not_completed_since_last_clear(self) -> bool
        ensures { result ≡ test_not_completed_since_last_clear self.bits }
    {
        self.has(DtcStatusMask::TestNotCompletedSinceLastClear)
    }

    // A test failed since the codes were cleared.
    pub fn test_failed_since_last_clear(self) -> bool
        ensures { result ≡ test_failed_since_last_clear self.bits }
    {
        self.has(DtcStatusMask::TestFailedSinceLastClear)
    }

    pub fn test_not_completed_this_operation_cycle(self) -> bool
        ensures { result ≡ test_not_completed_this_operation_cycle self.bits }
    {
        self.has(DtcStatusMask::TestNotCompletedThisOperationCycle)
    }

    pub fn warning_indicator_requested(self) -> bool
        ensures { result ≡ warning_indicator_requested self.bits }
    {
        self.has(DtcStatusMask::WarningIndicatorRequested)
    }

    // Whether a status matches this mask: some bit is set in both.
    pub fn matches(self, status: DtcStatusMask) -> bool
        ensures { result ≡ matches self.bits status.bits }
    {
        self.bits & status.bits != 0
    }
}

// What the paper says of each of the eight masks: it is the mask of the question that it is named after. Nobody uses the trait: it is the table.
// A clause cannot name a constant of one sort of mask, and a constant of a trait is proved to be what its ghost says.
trait StatusMasks {
    ghost use Rattle.dtc.specs.declared.status.Mask.{Mask};
    ghost use Rattle.dtc.specs.declared.status.Status.{Status};

    ghost TestFailed: { Mask Status };

    const TestFailed: DtcStatusMask;

    ghost TestFailedThisOperationCycle: { Mask Status };

    const TestFailedThisOperationCycle: DtcStatusMask;

    ghost PendingDtc: { Mask Status };

    const PendingDtc: DtcStatusMask;

    ghost ConfirmedDtc: { Mask Status };

    const ConfirmedDtc: DtcStatusMask;

    ghost TestNotCompletedSinceLastClear: { Mask Status };

    const TestNotCompletedSinceLastClear: DtcStatusMask;

    ghost TestFailedSinceLastClear: { Mask Status };

    const TestFailedSinceLastClear: DtcStatusMask;

    ghost TestNotCompletedThisOperationCycle: { Mask Status };

    const TestNotCompletedThisOperationCycle: DtcStatusMask;

    ghost WarningIndicatorRequested: { Mask Status };

    const WarningIndicatorRequested: DtcStatusMask;
}

impl StatusMasks for DtcStatusMask {
    ghost TestFailed = { named test_failed };

    const TestFailed: DtcStatusMask = DtcStatusMask::TestFailed;

    ghost TestFailedThisOperationCycle = { named test_failed_this_operation_cycle };

    const TestFailedThisOperationCycle: DtcStatusMask = DtcStatusMask::TestFailedThisOperationCycle;

    ghost PendingDtc = { named pending_dtc };

    const PendingDtc: DtcStatusMask = DtcStatusMask::PendingDtc;

    ghost ConfirmedDtc = { named confirmed_dtc };

    const ConfirmedDtc: DtcStatusMask = DtcStatusMask::ConfirmedDtc;

    ghost TestNotCompletedSinceLastClear = { named test_not_completed_since_last_clear };

    const TestNotCompletedSinceLastClear: DtcStatusMask =
        DtcStatusMask::TestNotCompletedSinceLastClear;

    ghost TestFailedSinceLastClear = { named test_failed_since_last_clear };

    const TestFailedSinceLastClear: DtcStatusMask = DtcStatusMask::TestFailedSinceLastClear;

    ghost TestNotCompletedThisOperationCycle = { named test_not_completed_this_operation_cycle };

    const TestNotCompletedThisOperationCycle: DtcStatusMask =
        DtcStatusMask::TestNotCompletedThisOperationCycle;

    ghost WarningIndicatorRequested = { named warning_indicator_requested };

    const WarningIndicatorRequested: DtcStatusMask = DtcStatusMask::WarningIndicatorRequested;
}

// ---- The severity mask.

// The names of a severity.
#[derive(Clone, Copy, Debug, PartialEq, Eq)]
pub struct Severity;

// How grave a code is: a class in bits 0 to 4 and what to do in bits 5 to 7.
pub type DtcSeverityMask = Mask<Severity>;

impl Mask<Severity> {
    pub const DtcClass0: DtcSeverityMask = mask!(0x01);

    pub const DtcClass1: DtcSeverityMask = mask!(0x02);

    pub const DtcClass2: DtcSeverityMask = mask!(0x04);

    pub const DtcClass3: DtcSeverityMask = mask!(0x08);

    pub const DtcClass4: DtcSeverityMask = mask!(0x10);

    pub const MaintenanceOnly: DtcSeverityMask = mask!(0x20);

    pub const CheckAtNextHalt: DtcSeverityMask = mask!(0x40);

    pub const CheckImmediately: DtcSeverityMask = mask!(0x80);

    pub fn dtc_class_0(self) -> bool
        ensures { result ≡ dtc_class 0 self.bits }
    {
        self.has(DtcSeverityMask::DtcClass0)
    }

    pub fn dtc_class_1(self) -> bool
        ensures { result ≡ dtc_class 1 self.bits }
    {
        self.has(DtcSeverityMask::DtcClass1)
    }

    pub fn dtc_class_2(self) -> bool
        ensures { result ≡ dtc_class 2 self.bits }
    {
        self.has(DtcSeverityMask::DtcClass2)
    }

    pub fn dtc_class_3(self) -> bool
        ensures { result ≡ dtc_class 3 self.bits }
    {
        self.has(DtcSeverityMask::DtcClass3)
    }

    pub fn dtc_class_4(self) -> bool
        ensures { result ≡ dtc_class 4 self.bits }
    {
        self.has(DtcSeverityMask::DtcClass4)
    }

    // Maintenance is enough.
    pub fn maintenance_only(self) -> bool
        ensures { result ≡ maintenance_only self.bits }
    {
        self.has(DtcSeverityMask::MaintenanceOnly)
    }

    pub fn check_at_next_halt(self) -> bool
        ensures { result ≡ check_at_next_halt self.bits }
    {
        self.has(DtcSeverityMask::CheckAtNextHalt)
    }

    pub fn check_immediately(self) -> bool
        ensures { result ≡ check_immediately self.bits }
    {
        self.has(DtcSeverityMask::CheckImmediately)
    }

    // Valid when it names at least one class.
    pub fn is_valid(self) -> bool
        ensures { result ≡ severity_valid self.bits }
    {
        self.bits % 32 != 0
    }
}

// What the paper says of each of the eight, as of those of a status.
trait SeverityMasks {
    ghost use Rattle.dtc.specs.declared.status.Mask.{Mask};
    ghost use Rattle.dtc.specs.declared.status.Severity.{Severity};

    ghost DtcClass0: { Mask Severity };

    const DtcClass0: DtcSeverityMask;

    ghost DtcClass1: { Mask Severity };

    const DtcClass1: DtcSeverityMask;

    ghost DtcClass2: { Mask Severity };

    const DtcClass2: DtcSeverityMask;

    ghost DtcClass3: { Mask Severity };

    const DtcClass3: DtcSeverityMask;

    ghost DtcClass4: { Mask Severity };

    const DtcClass4: DtcSeverityMask;

    ghost MaintenanceOnly: { Mask Severity };

    const MaintenanceOnly: DtcSeverityMask;

    ghost CheckAtNextHalt: { Mask Severity };

    const CheckAtNextHalt: DtcSeverityMask;

    ghost CheckImmediately: { Mask Severity };

    const CheckImmediately: DtcSeverityMask;
}

impl SeverityMasks for DtcSeverityMask {
    ghost DtcClass0 = { named (dtc_class 0) };

    const DtcClass0: DtcSeverityMask = DtcSeverityMask::DtcClass0;

    ghost DtcClass1 = { named (dtc_class 1) };

    const DtcClass1: DtcSeverityMask = DtcSeverityMask::DtcClass1;

    ghost DtcClass2 = { named (dtc_class 2) };

    const DtcClass2: DtcSeverityMask = DtcSeverityMask::DtcClass2;

    ghost DtcClass3 = { named (dtc_class 3) };

    const DtcClass3: DtcSeverityMask = DtcSeverityMask::DtcClass3;

    ghost DtcClass4 = { named (dtc_class 4) };

    const DtcClass4: DtcSeverityMask = DtcSeverityMask::DtcClass4;

    ghost MaintenanceOnly = { named maintenance_only };

    const MaintenanceOnly: DtcSeverityMask = DtcSeverityMask::MaintenanceOnly;

    ghost CheckAtNextHalt = { named check_at_next_halt };

    const CheckAtNextHalt: DtcSeverityMask = DtcSeverityMask::CheckAtNextHalt;

    ghost CheckImmediately = { named check_immediately };

    const CheckImmediately: DtcSeverityMask = DtcSeverityMask::CheckImmediately;
}

// ---- The functional group.

// A code from 0xD1 to 0xDF, which only `from` makes of a byte.
#[derive(Clone, Copy, Debug, PartialEq, Eq)]
pub struct LegislativeCode(u8);

// A code that no group has, which only `from` makes of a byte.
#[derive(Clone, Copy, Debug, PartialEq, Eq)]
pub struct ReservedGroupCode(u8);

// Which part of the vehicle a code belongs to. Each byte is one of these, and each code is held once.
#[derive(Clone, Copy, Debug, PartialEq, Eq)]
pub enum FunctionalGroupIdentifier {
    EmissionsSystemGroup,
    SafetySystemGroup,
    LegislativeSystemGroup(LegislativeCode),
    VobdSystem,
    IsoSaeReserved(ReservedGroupCode),
}

impl From<u8> for FunctionalGroupIdentifier {
    ghost from_gives = { GroupOf };

    fn from(b: u8) -> FunctionalGroupIdentifier {
        match b {
            0x33 => FunctionalGroupIdentifier::EmissionsSystemGroup,
            0xD0 => FunctionalGroupIdentifier::SafetySystemGroup,
            0xD1..=0xDF => FunctionalGroupIdentifier::LegislativeSystemGroup(LegislativeCode(b)),
            0xFE => FunctionalGroupIdentifier::VobdSystem,
            _ => FunctionalGroupIdentifier::IsoSaeReserved(ReservedGroupCode(b)),
        }
    }
}

// The byte of the group.
impl From<FunctionalGroupIdentifier> for u8 {
    ghost from_gives = { λ g b. b ≡ group_byte g };

    fn from(group: FunctionalGroupIdentifier) -> u8 {
        match group {
            FunctionalGroupIdentifier::EmissionsSystemGroup => 0x33,
            FunctionalGroupIdentifier::SafetySystemGroup => 0xD0,
            FunctionalGroupIdentifier::LegislativeSystemGroup(c) => c.0,
            FunctionalGroupIdentifier::VobdSystem => 0xFE,
            FunctionalGroupIdentifier::IsoSaeReserved(c) => c.0,
        }
    }
}

impl FunctionalGroupIdentifier {
    pub fn from_byte(b: u8) -> FunctionalGroupIdentifier
        ensures { GroupOf b result }
    {
        FunctionalGroupIdentifier::from(b)
    }

    pub fn value(self) -> u8
        ensures { result ≡ group_byte self }
    {
        u8::from(self)
    }

    // The group and where the next field begins. An empty rest is refusal 1.
    // Two lines for each sort of field of one byte: a trait that has them once would be longer, and whoever reads a field would import it.
    pub fn decode(s: &[u8], at: usize) -> Result<(FunctionalGroupIdentifier, usize), Refusal>
        ensures { GroupRight s.now at result }
    {
        let (b, next) = byte_at(s, at)?;
        Ok((FunctionalGroupIdentifier::from(b), next))
    }

    pub fn encode(self, out: &mut [u8]) -> Result<usize, Refusal>
        ensures { Wrote (accepted (group_byte self ∷ [])) out.old result out.new }
    {
        put_byte(u8::from(self), out)
    }
}

// ---- The format.

// A code that no format has, which only `from` makes of a byte.
#[derive(Clone, Copy, Debug, PartialEq, Eq)]
pub struct ReservedFormatCode(u8);

// Which document's codes these are. Each byte is one of these, and each code is held once.
#[derive(Clone, Copy, Debug, PartialEq, Eq)]
pub enum DtcFormatIdentifier {
    SaeJ2012DaDtcFormat00,
    Iso14229_1DtcFormat,
    SaeJ1939_73DtcFormat,
    Iso11992_4DtcFormat,
    SaeJ2012DaDtcFormat04,
    IsoSaeReserved(ReservedFormatCode),
}

impl From<u8> for DtcFormatIdentifier {
    ghost from_gives = { FormatOf };

    fn from(b: u8) -> DtcFormatIdentifier {
        match b {
            0x00 => DtcFormatIdentifier::SaeJ2012DaDtcFormat00,
            0x01 => DtcFormatIdentifier::Iso14229_1DtcFormat,
            0x02 => DtcFormatIdentifier::SaeJ1939_73DtcFormat,
            0x03 => DtcFormatIdentifier::Iso11992_4DtcFormat,
            0x04 => DtcFormatIdentifier::SaeJ2012DaDtcFormat04,
            _ => DtcFormatIdentifier::IsoSaeReserved(ReservedFormatCode(b)),
        }
    }
}

// The byte of the format.
impl From<DtcFormatIdentifier> for u8 {
    ghost from_gives = { λ f b. b ≡ format_byte f };

    fn from(format: DtcFormatIdentifier) -> u8 {
        match format {
            DtcFormatIdentifier::SaeJ2012DaDtcFormat00 => 0x00,
            DtcFormatIdentifier::Iso14229_1DtcFormat => 0x01,
            DtcFormatIdentifier::SaeJ1939_73DtcFormat => 0x02,
            DtcFormatIdentifier::Iso11992_4DtcFormat => 0x03,
            DtcFormatIdentifier::SaeJ2012DaDtcFormat04 => 0x04,
            DtcFormatIdentifier::IsoSaeReserved(c) => c.0,
        }
    }
}

impl DtcFormatIdentifier {
    pub fn from_byte(b: u8) -> DtcFormatIdentifier
        ensures { FormatOf b result }
    {
        DtcFormatIdentifier::from(b)
    }

    pub fn value(self) -> u8
        ensures { result ≡ format_byte self }
    {
        u8::from(self)
    }
}

// ---- The stored-data record number.

// The number of a stored data record: a byte of a type of its own, so that a status byte cannot be passed for it.
#[derive(Clone, Copy, Debug, PartialEq, Eq)]
pub struct DtcStoredDataRecordNumber(u8);

impl DtcStoredDataRecordNumber {
    pub fn new(record_number: u8) -> DtcStoredDataRecordNumber
        ensures { result.0 ≡ record_number }
    {
        DtcStoredDataRecordNumber(record_number)
    }

    pub fn value(self) -> u8
        ensures { result ≡ self.0 }
    {
        self.0
    }

    // Number 0 is reserved.
    pub fn is_reserved(self) -> bool
        ensures { result ≡ reserved_record_number self.0 }
    {
        self.0 == 0
    }

    // The number and where the next field begins. An empty rest is refusal 1.
    pub fn decode(s: &[u8], at: usize) -> Result<(DtcStoredDataRecordNumber, usize), Refusal>
        ensures { RecordNumberRight s.now at result }
    {
        let (number, next) = byte_at(s, at)?;
        Ok((DtcStoredDataRecordNumber(number), next))
    }

    pub fn encode(self, out: &mut [u8]) -> Result<usize, Refusal>
        ensures { Wrote (accepted (self.0 ∷ [])) out.old result out.new }
    {
        put_byte(self.0, out)
    }
}
