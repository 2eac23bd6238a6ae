// The months: a bar each, with its parts, its figures and its name. A month is counted from 0 here.
// A refusal number is a place in the month's row, as in the legend.
ghost use Rattle.std.specs.Prelude.{◌≡◌, ◌+◌, ◌*◌, ◌≤◌, ◌<◌, length, take, drop};
ghost use Rattle.paper.specs.WrongLoads.{all};
ghost use Rattle.paper.specs.Chart.{height, part, parts_from, name_of, figures, no_records, month_drawn, months_from};
ghost use Rattle.form.specs.Text.{Grew};

use crate::scale::Top;
use form::{put, put_form};
use loads_text::row::{all_of, percent_of, refused_of};

// A month's bar: the month, its row of the table, and the top of the scale that it stands in.
#[derive(Clone, Copy)]
struct Bar {
    month: usize,
    row: [u32; 10],
    top: Top,
    ghost of_year: { month < 12 },
}

// Three letters from a place of the names on.
fn put_letters(names: &[u8], first: usize, out: &mut [u8], at: usize) -> usize
    requires { first + 3 ≤ length names.now }
    ensures { Grew (take 3 (drop first names.now)) 3 at out.old result out.new }
{
    put(&names[first..first + 3], out, at)
}

impl Bar {
    // The middle of the bar.
    fn middle(self) -> u64
        ensures { result ≡ 127 + 75 * self.month }
    {
        127 + 75 * self.month as u64
    }

    // The height of so many of the month's records, in units of the picture.
    #[tactic(auto, unfolding(paper::specs::Chart::height))]
    fn height(self, count: u64) -> u64
        requires { count ≤ 42949672950 }
        ensures { result ≡ height self.top.percent (all self.row) count }
    {
        (43000 * count)
            .checked_div(self.top.percent * all_of(self.row))
            .unwrap_or(0)
    }

    // The part of a refusal number with `count` records, over `below` records of smaller numbers; nothing where there is none.
    fn put_part(self, number: u64, below: u64, count: u64, out: &mut [u8], at: usize) -> usize
        requires { below + count ≤ 42949672950 }
        ensures { Grew (part self.month self.top.percent (all self.row) number below count) 160 at out.old result out.new }
    {
        if count == 0 {
            return at;
        }
        let low = self.height(below);
        let high = self.height(below + count);
        let numbers = [
            102 + 75 * self.month as u64,
            540u64.saturating_sub(high),
            high.saturating_sub(low),
            number,
        ];
        put_form(
            b"<rect x='_' y='_' width='51' height='_' fill='url(#p_)' stroke='#111'/>\n",
            &numbers,
            out,
            at,
        )
    }

    // The parts, from refusal number 1 on.
    fn put_parts(self, out: &mut [u8], at: usize) -> usize
        ensures { Grew (parts_from self.month self.top.percent (all self.row) 1 0 (drop 1 self.row)) 1440 at out.old result out.new }
    {
        let mut end = at;
        let mut below = 0;
        for number in 1..10 {
            let count = u64::from(self.row[number]);
            end = self.put_part(number as u64, below, count, out, end);
            below += count;
        }
        end
    }

    fn put_name(self, out: &mut [u8], at: usize) -> usize
        ensures { Grew (name_of self.month) 120 at out.old result out.new }
    {
        let a = put_form(
            b"<text x='_' y='564' text-anchor='middle' font-weight='bold'>",
            &[self.middle()],
            out,
            at,
        );
        let b = put_letters(
            b"JanFebMarAprMayJunJulAugSepOctNovDec",
            3 * self.month,
            out,
            a,
        );
        put(b"</text>\n", out, b)
    }

    // Of a hundred, above the bar, and `refused of all` below the name.
    fn put_figures(self, out: &mut [u8], at: usize) -> usize
        ensures { Grew (figures self.month self.top.percent self.row) 300 at out.old result out.new }
    {
        let refused = refused_of(self.row);
        let up = self.height(refused);
        let middle = self.middle();
        let numbers = [
            middle,
            532u64.saturating_sub(up),
            percent_of(self.row),
            middle,
            refused,
            all_of(self.row),
        ];
        put_form(
            b"<text x='_' y='_' text-anchor='middle' font-weight='bold'>_</text>\n<text x='_' y='584' text-anchor='middle' font-size='11'>_ of _</text>\n",
            &numbers,
            out,
            at,
        )
    }

    fn put_no_records(self, out: &mut [u8], at: usize) -> usize
        ensures { Grew (no_records self.month) 150 at out.old result out.new }
    {
        put_form(
            b"<text x='_' y='584' text-anchor='middle' font-size='11' fill='#777'>no records</text>\n",
            &[self.middle()],
            out,
            at,
        )
    }

    fn put_month(self, out: &mut [u8], at: usize) -> usize
        ensures { Grew (month_drawn self.month self.top.percent self.row) 1860 at out.old result out.new }
    {
        let a = self.put_name(out, at);
        if all_of(self.row) == 0 {
            return self.put_no_records(out, a);
        }
        let b = self.put_parts(out, a);
        self.put_figures(out, b)
    }
}

pub(crate) fn put_months(table: [[u32; 10]; 12], top: Top, out: &mut [u8], at: usize) -> usize
    ensures { Grew (months_from top.percent 0 table) 22320 at out.old result out.new }
{
    let mut end = at;
    for (month, row) in table.iter().enumerate() {
        let bar = Bar {
            month,
            row: *row,
            top,
        };
        end = bar.put_month(out, end);
    }
    end
}
