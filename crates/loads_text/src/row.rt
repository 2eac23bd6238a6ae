// A month's row of the table: its ten counts, those of the refusal numbers 0 to 9.
// Each of the sums promises its bound, for callers that multiply it, as `percent_of` does and, in crate `chart_text`, `fits_year`.
ghost use Rattle.std.specs.Prelude.{◌≡◌, ◌≤◌, drop};
ghost use Rattle.paper.specs.Tally.{sum};
ghost use Rattle.paper.specs.WrongLoads.{all, refused_of, percent};

// The sum of the counts from the refusal number `first` on.
pub fn sum_from(row: [u32; 10], first: usize) -> u64
    ensures value { result ≡ sum (drop first row) }
    ensures upper_bound { result ≤ 42949672950 }
{
    let Some(counts) = row.get(first..) else {
        return 0;
    };
    let mut total = 0;
    for count in counts {
        total += u64::from(*count);
    }
    total
}

// How many records the month has.
pub fn all_of(row: [u32; 10]) -> u64
    ensures value { result ≡ all row }
    ensures upper_bound { result ≤ 42949672950 }
{
    sum_from(row, 0)
}

// How many of them were refused: every number but 0.
pub fn refused_of(row: [u32; 10]) -> u64
    ensures value { result ≡ refused_of row }
    ensures upper_bound { result ≤ 42949672950 }
{
    sum_from(row, 1)
}

// How many of a hundred were refused, rounded down; 0 where there is no record.
pub fn percent_of(row: [u32; 10]) -> u64
    ensures { result ≡ percent row }
{
    (100 * refused_of(row))
        .checked_div(all_of(row))
        .unwrap_or(0)
}
