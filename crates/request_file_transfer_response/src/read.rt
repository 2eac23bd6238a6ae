// Reading a response: an unknown mode is refused at once; then, by kind, block length, format byte and what comes after it.
//
//     mode                     then
//     2 DeleteFile             nothing
//     1 AddFile, 3 ReplaceFile block length, format byte
//     4 ReadFile               block length, format byte, width in two bytes, uncompressed size, compressed size
//     5 ReadDir                block length, format byte, width in two bytes, one size
//     6 ResumeFile             block length, format byte, position in eight bytes
//
// A block length is a count in one byte and so many bytes. Each reader is lent the whole message and told where its field begins,
// since the place of the block length counts from the message's start.
ghost use Rattle.std.specs.Prelude.{◌≡◌, ◌≤◌, length};
ghost use Rattle.paper.specs.Response.{two_sizes, one_size, one_position};
ghost use Rattle.wire.specs.Size.{value};
ghost use Rattle.request_file_transfer_response.specs.Layout.{more_of, layout_of};
ghost use Rattle.request_file_transfer_response.specs.Reading.{MoreRight, BodyRight, ResponseRight};

use crate::layout::{AfterFormat, after_mode};
use file_operation::mode::FileOperationMode;
use file_operation::payload::{
    DataFormatIdentifier, DirSizePayload, FileSizePayload, PositionPayload,
};
use wire::group::{one_size_at, two_sizes_at};
use wire::number::{byte_at, eight_at};
use wire::place::{Place, counted_at};
use wire::prefix::Prefix;
use wire::refusal::Refusal;
use wire::size::Size;

// A response; its block length is a place of the message, whose bytes are handed on as sent. What the kind lacks is 0 or the empty place.
// The one size of a ReadDir response stands as the uncompressed. The single bytes come last: so laid out, a response is handed on
// without waiting for them (docs/SPEED.md).
#[derive(Clone, Copy, Debug, PartialEq, Eq)]
pub struct RequestFileTransferResponse {
    pub max_number_of_block_length: Place,
    pub file_size: FileSizePayload,
    pub position: PositionPayload,
    pub kind: FileOperationMode,
    pub data_format_identifier: DataFormatIdentifier,
}

impl RequestFileTransferResponse {
    // The size of the directory information, in a ReadDir response.
    pub fn dir_size(self) -> DirSizePayload
        ensures { result.dir_info_length ≡ self.file_size.file_size_uncompressed }
    {
        DirSizePayload {
            dir_info_length: self.file_size.file_size_uncompressed,
        }
    }
}

// What stands after the format byte.
#[derive(Clone, Copy)]
struct More {
    position: PositionPayload,
    file_size: FileSizePayload,
}

// A position alone, or none: both sizes are 0.
fn without_sizes(file_position: u64) -> More
    ensures { (value result.file_size.file_size_uncompressed ≡ 0) × (value result.file_size.file_size_compressed ≡ 0) × (result.position.file_position ≡ file_position) }
{
    More {
        file_size: FileSizePayload {
            file_size_uncompressed: Size { high: 0, low: 0 },
            file_size_compressed: Size { high: 0, low: 0 },
        },
        position: PositionPayload { file_position },
    }
}

// The width has two bytes.
fn file_size_at(s: &[u8], at: usize) -> Result<(More, usize), Refusal>
    ensures { MoreRight two_sizes s.now at result }
{
    let (sizes, next) = two_sizes_at(Prefix::Two, s, at)?;
    let more = More {
        file_size: FileSizePayload {
            file_size_uncompressed: sizes.uncompressed,
            file_size_compressed: sizes.compressed,
        },
        position: PositionPayload { file_position: 0 },
    };
    Ok((more, next))
}

// The width has two bytes.
fn dir_size_at(s: &[u8], at: usize) -> Result<(More, usize), Refusal>
    ensures { MoreRight one_size s.now at result }
{
    let (file_size_uncompressed, next) = one_size_at(Prefix::Two, s, at)?;
    let more = More {
        file_size: FileSizePayload {
            file_size_uncompressed,
            file_size_compressed: Size { high: 0, low: 0 },
        },
        position: PositionPayload { file_position: 0 },
    };
    Ok((more, next))
}

fn position_at(s: &[u8], at: usize) -> Result<(More, usize), Refusal>
    ensures { MoreRight one_position s.now at result }
{
    let (file_position, next) = eight_at(s, at)?;
    Ok((without_sizes(file_position), next))
}

fn more_at(layout: AfterFormat, s: &[u8], at: usize) -> Result<(More, usize), Refusal>
    requires { at ≤ length s.now }
    ensures { MoreRight (more_of layout) s.now at result }
{
    match layout {
        AfterFormat::Nothing => Ok((without_sizes(0), at)),
        AfterFormat::TwoSizes => file_size_at(s, at),
        AfterFormat::OneSize => dir_size_at(s, at),
        AfterFormat::Position => position_at(s, at),
    }
}

// What stands after the mode.
#[derive(Clone, Copy)]
struct Body {
    block: Place,
    format: DataFormatIdentifier,
    more: More,
}

fn body_at(layout: Option<AfterFormat>, s: &[u8], at: usize) -> Result<(Body, usize), Refusal>
    requires { at ≤ length s.now }
    ensures { BodyRight (layout_of layout) s.now at result }
{
    let Some(last) = layout else {
        let ended = Body {
            block: Place { start: 0, len: 0 },
            format: DataFormatIdentifier::from(0),
            more: without_sizes(0),
        };
        return Ok((ended, at));
    };
    let (block, after_block) = counted_at(Prefix::One, s, at)?;
    let (format, next) = byte_at(s, after_block)?;
    let (more, end) = more_at(last, s, next)?;
    let body = Body {
        block,
        format: DataFormatIdentifier::from(format),
        more,
    };
    Ok((body, end))
}

// The response and where the tail begins. An unknown mode is refused at once.
pub fn read_response(s: &[u8]) -> Result<(RequestFileTransferResponse, usize), Refusal>
    ensures { ResponseRight s.now result }
{
    let (mode, next) = byte_at(s, 0)?;
    let kind = FileOperationMode::try_from(mode)?;
    let (body, tail) = body_at(after_mode(kind), s, next)?;
    let response = RequestFileTransferResponse {
        max_number_of_block_length: body.block,
        file_size: body.more.file_size,
        position: body.more.position,
        kind,
        data_format_identifier: body.format,
    };
    Ok((response, tail))
}
