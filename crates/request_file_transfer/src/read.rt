// Reading a request: mode, name, and only then the kind and what it has after the name.
// Each reader of a field is lent the whole message and told where the field begins, since the place of the name and that of the tail count from the message's start.
ghost use Rattle.std.specs.Prelude.{◌≡◌, ◌≤◌, length};
ghost use Rattle.paper.specs.Request.{format_and_sizes, nothing, format_only};
ghost use Rattle.wire.specs.Size.{value};
ghost use Rattle.request_file_transfer.specs.Layout.{layout_of};
ghost use Rattle.request_file_transfer.specs.Reading.{RestRight, RequestRight};

use crate::layout::{AfterName, after_name};
use crate::name::name_at;
use file_operation::mode::FileOperationMode;
use file_operation::payload::{DataFormatIdentifier, SizePayload};
use wire::group::two_sizes_at;
use wire::number::byte_at;
use wire::place::Place;
use wire::prefix::Prefix;
use wire::refusal::Refusal;
use wire::size::Size;

// A request; its name is a place of the message. What the kind lacks is 0. The single bytes come last, as in a response.
#[derive(Clone, Copy, Debug, PartialEq, Eq)]
pub struct RequestFileTransferRequest {
    pub file_path_and_name: Place,
    pub size: SizePayload,
    pub kind: FileOperationMode,
    pub data_format_identifier: DataFormatIdentifier,
}

impl RequestFileTransferRequest {
    // What the request asks for.
    pub fn mode_of_operation(self) -> FileOperationMode
        ensures { result ≡ self.kind }
    {
        self.kind
    }
}

// What stands after the name.
#[derive(Clone, Copy)]
struct Rest {
    format: DataFormatIdentifier,
    size: SizePayload,
}

// A format byte alone, or none: both sizes are 0.
fn without_sizes(format: u8) -> Rest
    ensures { (result.format.0 ≡ format) × (value result.size.file_size_uncompressed ≡ 0) × (value result.size.file_size_compressed ≡ 0) }
{
    Rest {
        format: DataFormatIdentifier::from(format),
        size: SizePayload {
            file_size_uncompressed: Size { high: 0, low: 0 },
            file_size_compressed: Size { high: 0, low: 0 },
        },
    }
}

fn nothing_at(s: &[u8], at: usize) -> Result<(Rest, usize), Refusal>
    requires { at ≤ length s.now }
    ensures { RestRight nothing s.now at result }
{
    Ok((without_sizes(0), at))
}

fn format_at(s: &[u8], at: usize) -> Result<(Rest, usize), Refusal>
    ensures { RestRight format_only s.now at result }
{
    let (format, next) = byte_at(s, at)?;
    Ok((without_sizes(format), next))
}

fn format_and_sizes_at(s: &[u8], at: usize) -> Result<(Rest, usize), Refusal>
    ensures { RestRight format_and_sizes s.now at result }
{
    let (format, next) = byte_at(s, at)?;
    let (sizes, after_sizes) = two_sizes_at(Prefix::One, s, next)?;
    let rest = Rest {
        format: DataFormatIdentifier::from(format),
        size: SizePayload {
            file_size_uncompressed: sizes.uncompressed,
            file_size_compressed: sizes.compressed,
        },
    };
    Ok((rest, after_sizes))
}

fn rest_at(layout: AfterName, s: &[u8], at: usize) -> Result<(Rest, usize), Refusal>
    requires { at ≤ length s.now }
    ensures { RestRight (layout_of layout) s.now at result }
{
    match layout {
        AfterName::FormatAndSizes => format_and_sizes_at(s, at),
        AfterName::Nothing => nothing_at(s, at),
        AfterName::FormatOnly => format_at(s, at),
    }
}

// The request and where the tail begins. An unknown mode is refused only after the name is read and found good.
pub fn read_request(s: &[u8]) -> Result<(RequestFileTransferRequest, usize), Refusal>
    ensures { RequestRight s.now result }
{
    let (mode, after_mode) = byte_at(s, 0)?;
    let (file_path_and_name, next) = name_at(s, after_mode)?;
    let kind = FileOperationMode::try_from(mode)?;
    let (rest, tail) = rest_at(after_name(kind), s, next)?;
    let request = RequestFileTransferRequest {
        file_path_and_name,
        size: rest.size,
        kind,
        data_format_identifier: rest.format,
    };
    Ok((request, tail))
}
