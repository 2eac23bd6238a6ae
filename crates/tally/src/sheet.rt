// The table and the verdict in one answer, for callers who want both: whoever is behind a door.
ghost use Rattle.std.specs.Prelude.{◌≡◌};
ghost use Rattle.paper.specs.Tally.{tallied};
ghost use Rattle.tally.specs.Sheet.{cells_of, SheetRight};

use crate::count_records;
use wire::refusal::Refusal;

// The cells of a table one after the other, month by month with ten numbers each, and whether the records were counted; where they were not, the cells are 0.
// The cells lie as C is handed them. No `Result` of them: `SheetRight` promises zeros beside a refusal, and C reads those.
#[derive(Clone, Copy)]
pub struct Sheet {
    pub verdict: Result<(), Refusal>,
    pub cells: [u32; 120],
}

// The cells of a table of twelve rows of ten, one after the other.
fn cells_of(table: [[u32; 10]; 12]) -> [u32; 120]
    ensures { result ≡ cells_of table }
{
    let cells = table.as_flattened();
    std::array::from_fn(|i| cells[i])
}

pub fn sheet_of(records: &[u8]) -> Sheet
    ensures { SheetRight (tallied records.now) result }
{
    match count_records(records) {
        Ok(table) => Sheet {
            verdict: Ok(()),
            cells: cells_of(table),
        },
        Err(refusal) => Sheet {
            verdict: Err(refusal),
            cells: [0; 120],
        },
    }
}
