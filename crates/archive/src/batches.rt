// A morning's messages in one call.
ghost use Rattle.archive.specs.Batches.{BatchRead};

use batch::read_batch;
use station::records::DeskRecord;

// The refusal number of each message, in the list from its start: as many as there are lengths.
#[unsafe(no_mangle)]
pub extern "C" fn skr_read_batch(buffer: &[u8], lengths: &[u32], list: &mut [u8]) -> DeskRecord
    ensures { BatchRead buffer.now lengths.now list.old result list.new }
{
    match read_batch(buffer, lengths, list) {
        Ok(_) => DeskRecord::from(()),
        Err(e) => e.into(),
    }
}
