// Parts that are written. Too little room is refusal 7, judged last; refused, nothing changes.
ghost use Rattle.std.specs.Prelude.{[], ◌∷◌};
ghost use Rattle.paper.specs.Answer.{accepted};
ghost use Rattle.wire.specs.Prefix.{prefix_len};
ghost use Rattle.wire.specs.Writing.{sizes_out};
ghost use Rattle.station.specs.Handed.{halves};
ghost use Rattle.station.specs.Records.{WroteRecord};
ghost use Rattle.parts.specs.Handed.{name_handed, block_length_handed, sizes_handed, file_sizes_handed, dir_size_handed, position_handed};

use request_file_transfer::name::good_name;
use station::records::{WrittenRecord, flat};
use wire::prefix::Prefix;
use wire::size::Size;
use wire::write::{put_counted, put_eight, put_one_size, put_two_sizes};

// The name after its length in two bytes: over 65,535 bytes it is refusal 2, with 0, and not UTF-8, with the length of its longest beginning that is.
#[unsafe(no_mangle)]
pub extern "C" fn skr_write_name(name: &[u8], room: &mut [u8]) -> WrittenRecord
    ensures { WroteRecord (name_handed name.now) room.old result room.new }
{
    match good_name(name) {
        Ok(_) => flat(put_counted(Prefix::Two, name, room)),
        Err(e) => e.into(),
    }
}

// The block length after its count in one byte: over 255 bytes it is refusal 2.
#[unsafe(no_mangle)]
pub extern "C" fn skr_write_block_length(block: &[u8], room: &mut [u8]) -> WrittenRecord
    ensures { WroteRecord (block_length_handed block.now) room.old result room.new }
{
    flat(put_counted(Prefix::One, block, room))
}

// Two sizes after their width: it is the smallest that holds both, here and below.
fn write_two_sizes(
    prefix: Prefix,
    uncompressed_high: u64,
    uncompressed_low: u64,
    compressed_high: u64,
    compressed_low: u64,
    room: &mut [u8],
) -> WrittenRecord
    ensures { WroteRecord (accepted (sizes_out (prefix_len prefix) (halves uncompressed_high uncompressed_low ∷ halves compressed_high compressed_low ∷ [])))
        room.old result room.new }
{
    let uncompressed = Size {
        high: uncompressed_high,
        low: uncompressed_low,
    };
    let compressed = Size {
        high: compressed_high,
        low: compressed_low,
    };
    flat(put_two_sizes(prefix, uncompressed, compressed, room))
}

// With the width in one byte, as requests have them.
#[unsafe(no_mangle)]
pub extern "C" fn skr_write_sizes(
    uncompressed_high: u64,
    uncompressed_low: u64,
    compressed_high: u64,
    compressed_low: u64,
    room: &mut [u8],
) -> WrittenRecord
    ensures { WroteRecord (sizes_handed uncompressed_high uncompressed_low compressed_high compressed_low) room.old result room.new }
{
    write_two_sizes(
        Prefix::One,
        uncompressed_high,
        uncompressed_low,
        compressed_high,
        compressed_low,
        room,
    )
}

// With the width in two bytes, as responses have them.
#[unsafe(no_mangle)]
pub extern "C" fn skr_write_file_sizes(
    uncompressed_high: u64,
    uncompressed_low: u64,
    compressed_high: u64,
    compressed_low: u64,
    room: &mut [u8],
) -> WrittenRecord
    ensures { WroteRecord (file_sizes_handed uncompressed_high uncompressed_low compressed_high compressed_low) room.old result room.new }
{
    write_two_sizes(
        Prefix::Two,
        uncompressed_high,
        uncompressed_low,
        compressed_high,
        compressed_low,
        room,
    )
}

// One size after its width in two bytes.
#[unsafe(no_mangle)]
pub extern "C" fn skr_write_dir_size(high: u64, low: u64, room: &mut [u8]) -> WrittenRecord
    ensures { WroteRecord (dir_size_handed high low) room.old result room.new }
{
    flat(put_one_size(Prefix::Two, Size { high, low }, room))
}

// The position in eight bytes.
#[unsafe(no_mangle)]
pub extern "C" fn skr_write_position(position: u64, room: &mut [u8]) -> WrittenRecord
    ensures { WroteRecord (position_handed position) room.old result room.new }
{
    flat(put_eight(position, room))
}
