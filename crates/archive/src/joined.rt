// Requests that were joined without lengths, taken apart again.
ghost use Rattle.std.specs.Prelude.{◌≡◌, Ok, Err};
ghost use Rattle.joined_requests.specs.Split.{answered, found_in};
ghost use Rattle.archive.specs.Joined.{split_record, SplitInto};

use joined_requests::{SplitError, split_joined};
use station::records::flat;

// How many pieces were found: all of them, or beside a refusal those before it.
#[repr(C)]
#[derive(Clone, Copy, Default)]
pub struct SplitRecord {
    pub number: u64,
    pub first: u64,
    pub second: u64,
    pub count: u64,
}

impl From<usize> for SplitRecord {
    ghost from_gives = { λ count r. r ≡ split_record (answered (Ok count)) (found_in (Ok count)) };

    fn from(count: usize) -> SplitRecord {
        SplitRecord {
            count: count as u64,
            ..SplitRecord::default()
        }
    }
}

impl From<SplitError> for SplitRecord {
    ghost from_gives = { λ x r. r ≡ split_record (answered (Err x)) (found_in (Err x)) };

    fn from(x: SplitError) -> SplitRecord {
        let e = x.refusal;
        SplitRecord {
            number: e.number() as u64,
            first: e.first() as u64,
            second: e.second() as u64,
            count: x.found as u64,
        }
    }
}

// The lengths of the requests of a buffer, in the list from its start.
#[unsafe(no_mangle)]
pub extern "C" fn skr_split_joined(buffer: &[u8], lengths: &mut [u32]) -> SplitRecord
    ensures { SplitInto buffer.now lengths.old result lengths.new }
{
    flat(split_joined(buffer, lengths))
}
