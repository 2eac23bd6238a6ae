// Requests that were joined without lengths, taken apart again.
ghost use Rattle.archive.specs.Joined.{SplitInto};

use archive::joined::SplitRecord;

// The lengths of the requests of a buffer, in the list from its start.
#[unsafe(no_mangle)]
pub extern "C" fn skr_split_joined(buffer: &[u8], lengths: &mut [u32]) -> SplitRecord
    ensures { SplitInto buffer.now lengths.old result lengths.new }
{
    archive::joined::skr_split_joined(buffer, lengths)
}
