// Parts that are written. Too little room is refusal 7, judged last; refused, nothing changes.
ghost use Rattle.station.specs.Records.{WroteRecord};
ghost use Rattle.parts.specs.Handed.{name_handed, block_length_handed, sizes_handed, file_sizes_handed, dir_size_handed, position_handed};

use station::records::WrittenRecord;

// The name after its length in two bytes: over 65,535 bytes it is refusal 2, with 0, and not UTF-8, with the length of its longest beginning that is.
#[unsafe(no_mangle)]
pub extern "C" fn skr_write_name(name: &[u8], room: &mut [u8]) -> WrittenRecord
    ensures { WroteRecord (name_handed name.now) room.old result room.new }
{
    parts::write::skr_write_name(name, room)
}

// The block length after its count in one byte: over 255 bytes it is refusal 2.
#[unsafe(no_mangle)]
pub extern "C" fn skr_write_block_length(block: &[u8], room: &mut [u8]) -> WrittenRecord
    ensures { WroteRecord (block_length_handed block.now) room.old result room.new }
{
    parts::write::skr_write_block_length(block, room)
}

// Two sizes after their width in one byte, as requests have them: the width is the smallest that holds both, here and below.
#[unsafe(no_mangle)]
pub extern "C" fn skr_write_sizes(
    uncompressed_high: u64,
    uncompressed_low: u64,
    compressed_high: u64,
    compressed_low: u64,
    room: &mut [u8],
) -> WrittenRecord
    ensures { WroteRecord (sizes_handed uncompressed_high uncompressed_low compressed_high compressed_low) room.old result room.new }
{
    parts::write::skr_write_sizes(
        uncompressed_high,
        uncompressed_low,
        compressed_high,
        compressed_low,
        room,
    )
}

// Two sizes after their width in two bytes, as responses have them.
#[unsafe(no_mangle)]
pub extern "C" fn skr_write_file_sizes(
    uncompressed_high: u64,
    uncompressed_low: u64,
    compressed_high: u64,
    compressed_low: u64,
    room: &mut [u8],
) -> WrittenRecord
    ensures { WroteRecord (file_sizes_handed uncompressed_high uncompressed_low compressed_high compressed_low) room.old result room.new }
{
    parts::write::skr_write_file_sizes(
        uncompressed_high,
        uncompressed_low,
        compressed_high,
        compressed_low,
        room,
    )
}

// One size after its width in two bytes.
#[unsafe(no_mangle)]
pub extern "C" fn skr_write_dir_size(high: u64, low: u64, room: &mut [u8]) -> WrittenRecord
    ensures { WroteRecord (dir_size_handed high low) room.old result room.new }
{
    parts::write::skr_write_dir_size(high, low, room)
}

// The position in eight bytes.
#[unsafe(no_mangle)]
pub extern "C" fn skr_write_position(position: u64, room: &mut [u8]) -> WrittenRecord
    ensures { WroteRecord (position_handed position) room.old result room.new }
{
    parts::write::skr_write_position(position, room)
}
