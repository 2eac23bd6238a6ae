// Writing a request: all checks first, then each field into the room that begins where the previous one ended.
ghost use Rattle.std.specs.Prelude.{◌≡◌, ◌+◌, ◌≤◌, length};
ghost use Rattle.paper.specs.Request.{format_and_sizes, after_name, write_request, IsName};
ghost use Rattle.wire.specs.Writing.{told, Wrote, Filled};
ghost use Rattle.file_operation.specs.Mode.{kind_of};
ghost use Rattle.file_operation.specs.Writing.{length_in};
ghost use Rattle.request_file_transfer.specs.Layout.{layout_of};
ghost use Rattle.request_file_transfer.specs.Writing.{request_of, rest_bytes};

use crate::layout::{AfterName, after_name};
use crate::name::good_name;
use file_operation::mode::FileOperationMode;
use file_operation::payload::{DataFormatIdentifier, SizePayload};
use wire::prefix::Prefix;
use wire::refusal::Refusal;
use wire::size::width_of_both;
use wire::write::{put_byte, put_counted, put_two_sizes};

// How many bytes stand after the name.
fn rest_len(layout: AfterName, size: SizePayload) -> usize
    ensures { (result ≡ length (rest_bytes (layout_of layout) 0 size)) × (result ≤ 34) }
{
    match layout {
        AfterName::FormatAndSizes => {
            2 + 2 * width_of_both(size.file_size_uncompressed, size.file_size_compressed)
        }
        AfterName::Nothing => 0,
        AfterName::FormatOnly => 1,
    }
}

// How many bytes a request takes whose name has so many.
fn request_len(kind: FileOperationMode, name_len: usize, size: SizePayload) -> usize
    requires { name_len ≤ 65535 }
    ensures { result ≡ 3 + name_len + length (rest_bytes (after_name (kind_of kind)) 0 size) }
{
    3 + name_len + rest_len(after_name(kind), size)
}

// How many bytes the request takes, without writing it; a name that is not good is refused.
pub fn needed(
    kind: FileOperationMode,
    file_path_and_name: &[u8],
    size: SizePayload,
) -> Result<usize, Refusal>
    ensures { told result ≡ length_in (write_request (request_of kind file_path_and_name.now 0 size)) }
{
    let name_len = good_name(file_path_and_name)?;
    Ok(request_len(kind, name_len, size))
}

fn put_format_and_sizes(format: DataFormatIdentifier, size: SizePayload, out: &mut [u8])
    requires { 1 ≤ length out.old }
    ensures { Filled (rest_bytes format_and_sizes format.0 size) out.old out.new }
{
    let _ = put_byte(format.into(), out);
    let _ = put_two_sizes(
        Prefix::One,
        size.file_size_uncompressed,
        size.file_size_compressed,
        &mut out[1..],
    );
}

fn put_rest(layout: AfterName, format: DataFormatIdentifier, size: SizePayload, out: &mut [u8])
    requires { length (rest_bytes (layout_of layout) format.0 size) ≤ length out.old }
    ensures { Filled (rest_bytes (layout_of layout) format.0 size) out.old out.new }
{
    match layout {
        AfterName::FormatAndSizes => put_format_and_sizes(format, size, out),
        AfterName::Nothing => {}
        AfterName::FormatOnly => {
            let _ = put_byte(format.into(), out);
        }
    }
}

// A request whose name was found good before, as that of a request that was read: it is not looked at again. Too little room is refusal 7; refused, nothing changes.
// The fields are handed over one by one, here and below: the law `write_request_determined` names the buffer by its place after them.
pub(crate) fn write_named(
    kind: FileOperationMode,
    file_path_and_name: &[u8],
    data_format_identifier: DataFormatIdentifier,
    size: SizePayload,
    out: &mut [u8],
) -> Result<usize, Refusal>
    requires { IsName file_path_and_name.now }
    ensures { Wrote (write_request (request_of kind file_path_and_name.now data_format_identifier.0 size)) out.old result out.new }
{
    let message_len = request_len(kind, file_path_and_name.len(), size);
    let room = out.len();
    if room < message_len {
        return Err(Refusal::NoRoom {
            needed: message_len,
            room,
        });
    }
    // The room was checked first, so that a refused write changes nothing: now no field is refused, and the answers are dropped.
    let _ = put_byte(kind.into(), out);
    let _ = put_counted(Prefix::Two, file_path_and_name, &mut out[1..]);
    put_rest(
        after_name(kind),
        data_format_identifier,
        size,
        &mut out[3 + file_path_and_name.len()..],
    );
    Ok(message_len)
}

// A name that is not good is refused first, then too little room, 7; refused, nothing changes. What the kind lacks is ignored.
pub fn write_request(
    kind: FileOperationMode,
    file_path_and_name: &[u8],
    data_format_identifier: DataFormatIdentifier,
    size: SizePayload,
    out: &mut [u8],
) -> Result<usize, Refusal>
    ensures { Wrote (write_request (request_of kind file_path_and_name.now data_format_identifier.0 size)) out.old result out.new }
{
    good_name(file_path_and_name)?;
    write_named(kind, file_path_and_name, data_format_identifier, size, out)
}
