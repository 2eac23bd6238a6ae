// The legend: the refusal numbers that occur, in words. A number is a place in a row of the table, which counts by it, and no kind of its own.
ghost use Rattle.std.specs.Prelude.{◌≡◌, ◌≤◌, ◌<◌, length};
ghost use Rattle.paper.specs.Chart.{occurs, words, entry, legend_from};
ghost use Rattle.form.specs.Text.{Grew};

use form::{put, put_form};

// Whether some month has records with this number.
fn occurs_in(number: usize, table: [[u32; 10]; 12]) -> bool
    requires { number < 10 }
    ensures { result ≡ occurs number table }
{
    for row in &table {
        if row[number] != 0 {
            return true;
        }
    }
    false
}

#[tactic(auto, unfolding(paper::specs::Chart::words))]
fn words_of(number: usize) -> &'static [u8]
    ensures value { result.now ≡ words number }
    ensures short { length result.now ≤ 20 }
{
    match number {
        1 => b"too short",
        2 => b"wrong format",
        3 => b"unknown mode",
        4 => b"unknown sub-function",
        5 => b"no trouble code",
        6 => b"bad width",
        7 => b"no room",
        8 => b"unequal sizes",
        9 => b"bytes left over",
        _ => b"",
    }
}

// The entry of a number, at a place of the legend: four to a row.
fn put_entry(place: u64, number: usize, out: &mut [u8], at: usize) -> usize
    requires { place ≤ 9 }
    ensures { Grew (entry place number) 260 at out.old result out.new }
{
    let x = 235 * (place % 4);
    let y = 28 * (place / 4);
    let n = number as u64;
    let numbers = [90 + x, 610 + y, n, 120 + x, 623 + y, n];
    let a = put_form(
        b"<rect x='_' y='_' width='22' height='16' fill='url(#p_)' stroke='#111'/><text x='_' y='_'>_ ",
        &numbers,
        out,
        at,
    );
    let b = put(words_of(number), out, a);
    put(b"</text>\n", out, b)
}

pub(crate) fn put_legend(table: [[u32; 10]; 12], out: &mut [u8], at: usize) -> usize
    ensures { Grew (legend_from table 0 1 9) 2340 at out.old result out.new }
{
    let mut end = at;
    let mut place = 0;
    for number in 1..10 {
        if occurs_in(number, table) {
            end = put_entry(place, number, out, end);
            place += 1;
        }
    }
    end
}
