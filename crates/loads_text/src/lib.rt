// What the program `wrong_loads` prints of the year's records: a line for each month that has any.
#![tactic(auto)]

pub mod row;

ghost use Rattle.std.specs.Prelude.{◌≡◌, length, replicate};
ghost use Rattle.io.specs.Counts.{IsPrefixLen};
ghost use Rattle.paper.specs.Answer.{over};
ghost use Rattle.paper.specs.WrongLoads.{month_line, lines_from, loads_text};
ghost use Rattle.form.specs.Text.{Grew};

use crate::row::{all_of, percent_of, refused_of};
use ascii_text::put_refused;
use form::put_form;
use tally::count_records;
use wire::write::put_bytes;

// Room for an input: one byte more than it may have, so that a longer one is seen to be too long. All zeros.
pub fn room() -> [u8; 65537]
    ensures value { 65537 ≡ length result }
    ensures value_2 { result ≡ replicate 65537 0 }
{
    [0; 65537]
}

// The line of a month after the text that stands in `out` up to `at`, as in `form`, for whose reason it takes both; nothing where the month has no record.
fn put_month(month: u64, row: [u32; 10], out: &mut [u8], at: usize) -> usize
    ensures { Grew (month_line month row) 88 at out.old result out.new }
{
    let all = all_of(row);
    if all == 0 {
        return at;
    }
    let numbers = [month, all, refused_of(row), percent_of(row)];
    put_form(b"_ _ _ _\n", &numbers, out, at)
}

// The lines of the year, from the start of `out`.
fn put_lines(table: [[u32; 10]; 12], out: &mut [u8]) -> usize
    ensures { Grew (lines_from 1 table) 1056 0 out.old result out.new }
{
    let mut end = 0;
    for (m, row) in table.iter().enumerate() {
        end = put_month(m as u64 + 1, *row, out, end);
    }
    end
}

// All that the program prints of an input, from the start of `out`. How many bytes it has.
// Above 65,536 bytes the input is too long; else its records are counted.
pub fn loads_text(input: &[u8], out: &mut [u8; 4096]) -> usize
    ensures value { result ≡ length (loads_text input.now) }
    ensures out_after { out.new ≡ over (loads_text input.now) out.old }
    ensures prefix_len { IsPrefixLen result out.new }
{
    if 65536 < input.len() {
        let _ = put_bytes(b"too long\n", out);
        return 9;
    }
    match count_records(input) {
        Ok(table) => put_lines(table, out),
        Err(refusal) => put_refused(refusal, out),
    }
}
