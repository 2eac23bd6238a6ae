// Writing a response: all checks first, then each field into the room that begins where the previous one ended.
ghost use Rattle.std.specs.Prelude.{◌≡◌, ◌≤◌, length};
ghost use Rattle.paper.specs.Response.{write_response};
ghost use Rattle.wire.specs.Writing.{told, Wrote, Filled};
ghost use Rattle.file_operation.specs.Mode.{kind_of};
ghost use Rattle.file_operation.specs.Writing.{length_in};
ghost use Rattle.request_file_transfer_response.specs.Layout.{more_of};
ghost use Rattle.request_file_transfer_response.specs.Writing.{response_of, more_bytes};

use crate::layout::{AfterFormat, after_mode};
use crate::sent_data::good_block_length;
use file_operation::mode::FileOperationMode;
use file_operation::payload::{DataFormatIdentifier, FileSizePayload, PositionPayload};
use wire::prefix::Prefix;
use wire::refusal::Refusal;
use wire::size::{width_of, width_of_both};
use wire::write::{put_byte, put_counted, put_eight, put_one_size, put_two_sizes};

// How many bytes stand after the format byte.
fn more_len(layout: AfterFormat, file_size: FileSizePayload) -> usize
    ensures { (result ≡ length (more_bytes (more_of layout) file_size 0)) × (result ≤ 34) }
{
    match layout {
        AfterFormat::Nothing => 0,
        AfterFormat::TwoSizes => {
            2 + 2
                * width_of_both(
                    file_size.file_size_uncompressed,
                    file_size.file_size_compressed,
                )
        }
        AfterFormat::OneSize => 2 + width_of(file_size.file_size_uncompressed),
        AfterFormat::Position => 8,
    }
}

// How many bytes the response takes, without writing it; a block length that is not good is refused, where the kind has one.
pub fn needed(
    kind: FileOperationMode,
    max_number_of_block_length: &[u8],
    file_size: FileSizePayload,
) -> Result<usize, Refusal>
    ensures { told result ≡ length_in (write_response (response_of kind max_number_of_block_length.now 0 file_size 0)) }
{
    let Some(layout) = after_mode(kind) else {
        return Ok(1);
    };
    let block_len = good_block_length(max_number_of_block_length)?;
    prove!(block_len <= 255);
    Ok(3 + block_len + more_len(layout, file_size))
}

fn put_more(
    layout: AfterFormat,
    file_size: FileSizePayload,
    position: PositionPayload,
    out: &mut [u8],
)
    ensures { Filled (more_bytes (more_of layout) file_size position.file_position) out.old out.new }
{
    let uncompressed = file_size.file_size_uncompressed;
    let compressed = file_size.file_size_compressed;
    match layout {
        AfterFormat::Nothing => {}
        AfterFormat::TwoSizes => {
            let _ = put_two_sizes(Prefix::Two, uncompressed, compressed, out);
        }
        AfterFormat::OneSize => {
            let _ = put_one_size(Prefix::Two, uncompressed, out);
        }
        AfterFormat::Position => {
            let _ = put_eight(position.file_position, out);
        }
    }
}

// What the kind lacks is ignored, over-long or not. Too little room is refusal 7; refused, nothing changes.
// The fields are handed over one by one: the law `write_response_determined` names the buffer by its place after them.
pub fn write_response(
    kind: FileOperationMode,
    max_number_of_block_length: &[u8],
    data_format_identifier: DataFormatIdentifier,
    file_size: FileSizePayload,
    position: PositionPayload,
    out: &mut [u8],
) -> Result<usize, Refusal>
    ensures { Wrote (write_response (response_of kind max_number_of_block_length.now data_format_identifier.0 file_size position.file_position)) out.old result out.new }
{
    let message_len = needed(kind, max_number_of_block_length, file_size)?;
    let room = out.len();
    if room < message_len {
        return Err(Refusal::NoRoom {
            needed: message_len,
            room,
        });
    }
    // The room was checked first, so that a refused write changes nothing: now no field is refused, and the answers are dropped.
    let _ = put_byte(kind.into(), out);
    let Some(layout) = after_mode(kind) else {
        return Ok(message_len);
    };
    let after_block = 2 + max_number_of_block_length.len();
    prove!(after_block < message_len);
    let _ = put_counted(Prefix::One, max_number_of_block_length, &mut out[1..]);
    let _ = put_byte(data_format_identifier.into(), &mut out[after_block..]);
    put_more(layout, file_size, position, &mut out[after_block + 1..]);
    Ok(message_len)
}
