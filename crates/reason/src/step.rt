// What is wrong with a field that its own reader refused.
// What was needed is told by the first value of whatever refusal is left, as `name_fault`, `block_fault` and `sizes_fault` of specs/Step have it.
ghost use Rattle.std.specs.Prelude.{◌≡◌};
ghost use Rattle.wire.specs.Refusals.{row};
ghost use Rattle.reason.specs.Reason.{fault_said};
ghost use Rattle.reason.specs.Step.{name_fault, block_fault, sizes_fault};

use crate::reason::Fault;
use wire::refusal::Refusal;

// What is wrong with a name that was refused: only its two length bytes can be needed where they are what is missing.
pub(crate) fn name_fault(e: Refusal) -> Fault
    ensures { fault_said result ≡ name_fault (row e) }
{
    if matches!(e, Refusal::WrongFormat { .. }) {
        return Fault::NotUtf8;
    }
    if e.first() == 2 {
        Fault::NoNameLength
    } else {
        Fault::CutName
    }
}

// What is wrong with a block length that was refused.
pub(crate) fn block_fault(e: Refusal) -> Fault
    ensures { fault_said result ≡ block_fault (row e) }
{
    if e.first() == 1 {
        Fault::NoCount
    } else {
        Fault::CutBlock
    }
}

// What is wrong with sizes that were refused: a group with sizes needs at least 3 bytes, its width alone 1 or 2.
pub(crate) fn sizes_fault(e: Refusal) -> Fault
    ensures { fault_said result ≡ sizes_fault (row e) }
{
    if matches!(e, Refusal::BadWidth(_)) {
        return Fault::WrongWidth;
    }
    if e.first() <= 2 {
        Fault::NoWidth
    } else {
        Fault::CutSizes
    }
}
