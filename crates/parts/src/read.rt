// Parts that are read.
ghost use Rattle.std.specs.Prelude.{◌≡◌, length};
ghost use Rattle.paper.specs.Field.{name, block_length, size_group, number};
ghost use Rattle.wire.specs.Refusals.{row};
ghost use Rattle.parts.specs.Records.{part_record, refused_part, refused_sizes, sizes_record, refused_position, position_record};
ghost use Rattle.parts.specs.Flat.{accepted_part, accepted_sizes, accepted_size, accepted_position};

use crate::records::{PartRecord, PositionRecord, SizesRecord};
use request_file_transfer::name::name_at;
use station::records::flat;
use wire::group::{TwoSizes, one_size_at, two_sizes_at};
use wire::number::eight_at;
use wire::place::{Place, counted_at};
use wire::prefix::Prefix;
use wire::refusal::Refusal;
use wire::size::Size;

impl From<(Place, usize)> for PartRecord {
    ghost from_gives = { λ x r. r ≡ accepted_part x.0 x.1 };

    fn from((place, tail): (Place, usize)) -> PartRecord {
        PartRecord {
            start: place.start as u64,
            len: place.len as u64,
            tail: tail as u64,
            ..PartRecord::default()
        }
    }
}

impl From<Refusal> for PartRecord {
    ghost from_gives = { λ e r. r ≡ refused_part (row e) };

    fn from(e: Refusal) -> PartRecord {
        PartRecord {
            number: e.number() as u64,
            first: e.first() as u64,
            second: e.second() as u64,
            ..PartRecord::default()
        }
    }
}

// Each reader below is one call, and a symbol of its own to C.
// A name after its length in two bytes.
#[unsafe(no_mangle)]
pub extern "C" fn skr_read_name(buffer: &[u8]) -> PartRecord
    ensures { result ≡ part_record 2 (length buffer.now) (name buffer.now) }
{
    flat(name_at(buffer, 0))
}

// A block length after its count in one byte.
#[unsafe(no_mangle)]
pub extern "C" fn skr_read_block_length(buffer: &[u8]) -> PartRecord
    ensures { result ≡ part_record 1 (length buffer.now) (block_length buffer.now) }
{
    flat(counted_at(Prefix::One, buffer, 0))
}

impl From<(TwoSizes, usize)> for SizesRecord {
    ghost from_gives = { λ x r. r ≡ accepted_sizes x.0.uncompressed x.0.compressed x.1 };

    fn from((two, tail): (TwoSizes, usize)) -> SizesRecord {
        SizesRecord {
            uncompressed_high: two.uncompressed.high,
            uncompressed_low: two.uncompressed.low,
            compressed_high: two.compressed.high,
            compressed_low: two.compressed.low,
            tail: tail as u64,
            ..SizesRecord::default()
        }
    }
}

// One size that stands alone.
impl From<(Size, usize)> for SizesRecord {
    ghost from_gives = { λ x r. r ≡ accepted_size x.0 x.1 };

    fn from((size, tail): (Size, usize)) -> SizesRecord {
        SizesRecord {
            uncompressed_high: size.high,
            uncompressed_low: size.low,
            tail: tail as u64,
            ..SizesRecord::default()
        }
    }
}

impl From<Refusal> for SizesRecord {
    ghost from_gives = { λ e r. r ≡ refused_sizes (row e) };

    fn from(e: Refusal) -> SizesRecord {
        SizesRecord {
            number: e.number() as u64,
            first: e.first() as u64,
            second: e.second() as u64,
            ..SizesRecord::default()
        }
    }
}

// Two sizes after their width in one byte, as requests have them.
#[unsafe(no_mangle)]
pub extern "C" fn skr_read_sizes(buffer: &[u8]) -> SizesRecord
    ensures { result ≡ sizes_record (length buffer.now) (size_group 1 2 buffer.now) }
{
    flat(two_sizes_at(Prefix::One, buffer, 0))
}

// Two sizes after their width in two bytes, as responses have them.
#[unsafe(no_mangle)]
pub extern "C" fn skr_read_file_sizes(buffer: &[u8]) -> SizesRecord
    ensures { result ≡ sizes_record (length buffer.now) (size_group 2 2 buffer.now) }
{
    flat(two_sizes_at(Prefix::Two, buffer, 0))
}

// One size after its width in two bytes; the compressed size is 0.
#[unsafe(no_mangle)]
pub extern "C" fn skr_read_dir_size(buffer: &[u8]) -> SizesRecord
    ensures { result ≡ sizes_record (length buffer.now) (size_group 2 1 buffer.now) }
{
    flat(one_size_at(Prefix::Two, buffer, 0))
}

impl From<(u64, usize)> for PositionRecord {
    ghost from_gives = { λ x r. r ≡ accepted_position x.0 x.1 };

    fn from((position, tail): (u64, usize)) -> PositionRecord {
        PositionRecord {
            position,
            tail: tail as u64,
            ..PositionRecord::default()
        }
    }
}

impl From<Refusal> for PositionRecord {
    ghost from_gives = { λ e r. r ≡ refused_position (row e) };

    fn from(e: Refusal) -> PositionRecord {
        PositionRecord {
            number: e.number() as u64,
            first: e.first() as u64,
            second: e.second() as u64,
            ..PositionRecord::default()
        }
    }
}

// A position in eight bytes.
#[unsafe(no_mangle)]
pub extern "C" fn skr_read_position(buffer: &[u8]) -> PositionRecord
    ensures { result ≡ position_record (length buffer.now) (number 8 buffer.now) }
{
    flat(eight_at(buffer, 0))
}
