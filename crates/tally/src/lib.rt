// Wrong loads by month: the year's sheet of refusals, from records of 8 bytes without a header. Document 02 asks for it; the original has none.
// A record is month, station, direction (0 request, 1 response), refusal number, and the coach number in four bytes.
#![tactic(auto)]

pub mod sheet;

ghost use Rattle.std.specs.Prelude.{◌≡◌, ◌≤◌, IsTrue};
ghost use Rattle.paper.specs.Tally.{in_ranges, good_length, tallied, table_of, verdict};
ghost use Rattle.tally.specs.Judged.{judged, counted};

use wire::refusal::Refusal;

// Whether a record's month is 1 to 12, its direction 0 or 1 and its refusal number 0 to 9. Station and coach number may be anything.
// All three are bytes as they stand in a record, where each may have any value.
fn in_ranges(month: u8, direction: u8, number: u8) -> bool
    ensures value { result ≡ in_ranges month direction number }
    ensures bounds { IsTrue result → (1 ≤ month) × (month ≤ 12) × (number ≤ 9) }
{
    (1 <= month) & (month <= 12) & (direction <= 1) & (number <= 9)
}

// What the length decides: 12 for more than 65,536 whole records, then 10 where it is no multiple of 8.
fn judge_length(len: usize) -> Result<(), Refusal>
    ensures { judged result ≡ good_length len }
{
    if 65536 < len / 8 {
        return Err(Refusal::TooMany);
    }
    if len % 8 != 0 {
        return Err(Refusal::Cut);
    }
    Ok(())
}

// The table in one pass: a row for each month, a count for each refusal number. Refused: 12, then 10, then 11 with the place of the first record that has
// a field out of range.
pub fn count_records(records: &[u8]) -> Result<[[u32; 10]; 12], Refusal>
    ensures { counted result ≡ tallied records.now }
{
    judge_length(records.len())?;
    let (whole, _) = records.as_chunks::<8>();
    let mut table = [[0u32; 10]; 12];
    for (place, record) in whole.iter().enumerate() {
        let [month, _, direction, number, ..] = *record;
        if !in_ranges(month, direction, number) {
            return Err(Refusal::OutOfRange { place });
        }
        let row = usize::from(month) - 1;
        let cell = usize::from(number);
        table[row][cell] += 1;
    }
    Ok(table)
}

// Whether the records can be counted.
pub fn judge_records(records: &[u8]) -> Result<(), Refusal>
    ensures { judged result ≡ verdict (tallied records.now) }
{
    count_records(records)?;
    Ok(())
}

// The table alone. Records that are refused give a table of zeros.
pub fn tally(records: &[u8]) -> [[u32; 10]; 12]
    ensures { result ≡ table_of (tallied records.now) }
{
    count_records(records).unwrap_or([[0; 10]; 12])
}
