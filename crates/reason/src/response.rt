// Why a response is refused: the steps of its reader, one after the other; the first that refuses names its field and where that begins. Offsets count from the start of the message, so each step is lent all of it.
ghost use Rattle.std.specs.Prelude.{◌≡◌};
ghost use Rattle.paper.specs.Reason.{first_failed, response_checks};
ghost use Rattle.request_file_transfer_response.specs.Layout.{more_of, layout_of};
ghost use Rattle.reason.specs.Reason.{why_said};
ghost use Rattle.reason.specs.Step.{why_after_format, why_after_mode};

use crate::reason::{Fault, Reason};
use crate::step::{block_fault, sizes_fault};
use file_operation::mode::FileOperationMode;
use request_file_transfer_response::layout::{AfterFormat, after_mode};
use wire::group::{one_size_at, two_sizes_at};
use wire::number::{byte_at, eight_at};
use wire::place::counted_at;
use wire::prefix::Prefix;

fn after_the_format(layout: AfterFormat, s: &[u8], at: usize) -> Result<(), Reason>
    ensures { why_said result ≡ why_after_format (more_of layout) s.now at }
{
    match layout {
        AfterFormat::Nothing => {}
        AfterFormat::TwoSizes => {
            two_sizes_at(Prefix::Two, s, at).map_err(|e| Reason::new(sizes_fault(e), at, e))?;
        }
        AfterFormat::OneSize => {
            one_size_at(Prefix::Two, s, at).map_err(|e| Reason::new(sizes_fault(e), at, e))?;
        }
        AfterFormat::Position => {
            eight_at(s, at).map_err(|e| Reason::new(Fault::CutPosition, at, e))?;
        }
    }
    Ok(())
}

fn after_the_mode(layout: Option<AfterFormat>, s: &[u8]) -> Result<(), Reason>
    ensures { why_said result ≡ why_after_mode (layout_of layout) s.now }
{
    let Some(last) = layout else {
        return Ok(());
    };
    let (_, at_format) = counted_at(Prefix::One, s, 1).map_err(|e| Reason::new(
        block_fault(e),
        1,
        e,
    ))?;
    let (_, at_last) = byte_at(s, at_format).map_err(|e| Reason::new(
        Fault::NoFormat,
        at_format,
        e,
    ))?;
    after_the_format(last, s, at_last)
}

// No reason where every check passes. An unknown mode is the reason at once. Bytes left over are no reason.
pub fn why_response(s: &[u8]) -> Result<(), Reason>
    ensures { why_said result ≡ first_failed response_checks s.now }
{
    let (mode, _) = byte_at(s, 0).map_err(|e| Reason::new(Fault::NoMode, 0, e))?;
    let kind = FileOperationMode::try_from(mode).map_err(|e| Reason::new(Fault::NoSuchMode, 0, e))?;
    after_the_mode(after_mode(kind), s)
}
