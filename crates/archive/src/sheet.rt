// The year's sheet of refusals.
ghost use Rattle.std.specs.Prelude.{◌≡◌};
ghost use Rattle.paper.specs.Tally.{tallied};
ghost use Rattle.archive.specs.Sheets.{flat_sheet, tally_record};

use tally::sheet::{Sheet, sheet_of};

// A sheet of records counted: month by month, ten counts each.
#[repr(C)]
#[derive(Clone, Copy)]
pub struct TallyRecord {
    pub number: u64,
    pub first: u64,
    pub second: u64,
    pub cells: [u32; 120],
}

impl From<Sheet> for TallyRecord {
    ghost from_gives = { λ a r. r ≡ flat_sheet a };

    fn from(a: Sheet) -> TallyRecord {
        let cells = a.cells;
        match a.verdict {
            Ok(()) => TallyRecord {
                number: 0,
                first: 0,
                second: 0,
                cells,
            },
            Err(e) => TallyRecord {
                number: e.number() as u64,
                first: e.first() as u64,
                second: e.second() as u64,
                cells,
            },
        }
    }
}

// How many records of 8 bytes have each month and each refusal number.
#[unsafe(no_mangle)]
pub extern "C" fn skr_tally_records(records: &[u8]) -> TallyRecord
    ensures { result ≡ tally_record (tallied records.now) }
{
    sheet_of(records).into()
}
