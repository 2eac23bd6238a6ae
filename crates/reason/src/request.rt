// Why a request is refused: the steps of its reader, one after the other; the first that refuses names its field and where that begins. Offsets count from the start of the message, so each step is lent all of it.
ghost use Rattle.std.specs.Prelude.{◌≡◌};
ghost use Rattle.paper.specs.Reason.{first_failed, request_checks};
ghost use Rattle.request_file_transfer.specs.Layout.{layout_of};
ghost use Rattle.reason.specs.Reason.{why_said};
ghost use Rattle.reason.specs.Step.{why_after_name};

use crate::reason::{Fault, Reason};
use crate::step::{name_fault, sizes_fault};
use file_operation::mode::FileOperationMode;
use request_file_transfer::layout::{AfterName, after_name};
use request_file_transfer::name::name_at;
use wire::group::two_sizes_at;
use wire::number::byte_at;
use wire::prefix::Prefix;

fn after_the_name(layout: AfterName, s: &[u8], at: usize) -> Result<(), Reason>
    ensures { why_said result ≡ why_after_name (layout_of layout) s.now at }
{
    match layout {
        AfterName::Nothing => {}
        AfterName::FormatOnly => {
            byte_at(s, at).map_err(|e| Reason::new(Fault::NoFormat, at, e))?;
        }
        AfterName::FormatAndSizes => {
            let (_, at_group) = byte_at(s, at).map_err(|e| Reason::new(Fault::NoFormat, at, e))?;
            two_sizes_at(Prefix::One, s, at_group).map_err(|e| Reason::new(
                sizes_fault(e),
                at_group,
                e,
            ))?;
        }
    }
    Ok(())
}

// No reason where every check passes. An unknown mode is the reason only where the name is good, and is named as the mode. Bytes left over are no reason.
pub fn why_request(s: &[u8]) -> Result<(), Reason>
    ensures { why_said result ≡ first_failed request_checks s.now }
{
    let (mode, _) = byte_at(s, 0).map_err(|e| Reason::new(Fault::NoMode, 0, e))?;
    let (_, at_format) = name_at(s, 1).map_err(|e| Reason::new(name_fault(e), 1, e))?;
    let kind = FileOperationMode::try_from(mode).map_err(|e| Reason::new(Fault::NoSuchMode, 0, e))?;
    after_the_name(after_name(kind), s, at_format)
}
