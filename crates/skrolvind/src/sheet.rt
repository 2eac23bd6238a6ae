// The year's sheet of refusals.
ghost use Rattle.std.specs.Prelude.{◌≡◌};
ghost use Rattle.paper.specs.Tally.{tallied};
ghost use Rattle.archive.specs.Sheets.{tally_record};

use archive::sheet::TallyRecord;

// How many records of 8 bytes have each month and each refusal number.
#[unsafe(no_mangle)]
pub extern "C" fn skr_tally_records(records: &[u8]) -> TallyRecord
    ensures { result ≡ tally_record (tallied records.now) }
{
    archive::sheet::skr_tally_records(records)
}
