// Parts that are read.
ghost use Rattle.std.specs.Prelude.{◌≡◌, length};
ghost use Rattle.paper.specs.Field.{name, block_length, size_group, number};
ghost use Rattle.parts.specs.Records.{part_record, sizes_record, position_record};

use parts::records::{PartRecord, PositionRecord, SizesRecord};

// A name after its length in two bytes.
#[unsafe(no_mangle)]
pub extern "C" fn skr_read_name(buffer: &[u8]) -> PartRecord
    ensures { result ≡ part_record 2 (length buffer.now) (name buffer.now) }
{
    parts::read::skr_read_name(buffer)
}

// A block length after its count in one byte.
#[unsafe(no_mangle)]
pub extern "C" fn skr_read_block_length(buffer: &[u8]) -> PartRecord
    ensures { result ≡ part_record 1 (length buffer.now) (block_length buffer.now) }
{
    parts::read::skr_read_block_length(buffer)
}

// Two sizes after their width in one byte, as requests have them.
#[unsafe(no_mangle)]
pub extern "C" fn skr_read_sizes(buffer: &[u8]) -> SizesRecord
    ensures { result ≡ sizes_record (length buffer.now) (size_group 1 2 buffer.now) }
{
    parts::read::skr_read_sizes(buffer)
}

// Two sizes after their width in two bytes, as responses have them.
#[unsafe(no_mangle)]
pub extern "C" fn skr_read_file_sizes(buffer: &[u8]) -> SizesRecord
    ensures { result ≡ sizes_record (length buffer.now) (size_group 2 2 buffer.now) }
{
    parts::read::skr_read_file_sizes(buffer)
}

// One size after its width in two bytes; the compressed size is 0.
#[unsafe(no_mangle)]
pub extern "C" fn skr_read_dir_size(buffer: &[u8]) -> SizesRecord
    ensures { result ≡ sizes_record (length buffer.now) (size_group 2 1 buffer.now) }
{
    parts::read::skr_read_dir_size(buffer)
}

// A position in eight bytes.
#[unsafe(no_mangle)]
pub extern "C" fn skr_read_position(buffer: &[u8]) -> PositionRecord
    ensures { result ≡ position_record (length buffer.now) (number 8 buffer.now) }
{
    parts::read::skr_read_position(buffer)
}
