// The picture's frame: how it opens and closes, its heading, the patterns, the axes.
ghost use Rattle.std.specs.Prelude.{◌≡◌, ◌≤◌};
ghost use Rattle.paper.specs.Chart.{opening, closing, of_year, heading, patterns, axes, empty_note};
ghost use Rattle.form.specs.Text.{Grew};

use form::{put, put_form};
use loads_text::row::sum_from;

pub(crate) fn put_opening(out: &mut [u8], at: usize) -> usize
    ensures { Grew opening 300 at out.old result out.new }
{
    put(
        b"<svg xmlns='http://www.w3.org/2000/svg' viewBox='0 0 1120 700' width='1120' height='700' font-family='DejaVu Sans, Arial, sans-serif' font-size='15' fill='#111'>\n<rect width='100%' height='100%' fill='#fff'/>\n",
        out,
        at,
    )
}

pub(crate) fn put_closing(out: &mut [u8], at: usize) -> usize
    ensures { Grew closing 7 at out.old result out.new }
{
    put(b"</svg>\n", out, at)
}

// The records of the year from the refusal number `first` on.
fn of_year(table: [[u32; 10]; 12], first: usize) -> u64
    ensures { (result ≡ of_year first table) × (result ≤ 515396075400) }
{
    let mut total = 0;
    for row in &table {
        total += sum_from(*row, first);
    }
    total
}

// What the picture shows, and how many records the year has.
pub(crate) fn put_heading(table: [[u32; 10]; 12], out: &mut [u8], at: usize) -> usize
    ensures { Grew (heading table) 300 at out.old result out.new }
{
    let numbers = [of_year(table, 0), of_year(table, 1)];
    put_form(
        b"<text x='90' y='48' font-size='26' font-weight='bold'>Refused messages by month</text>\n<text x='90' y='76'>_ records, _ refused; of each hundred, in whole numbers, rounded down</text>\n",
        &numbers,
        out,
        at,
    )
}

// What each refusal number from 1 to 9 is filled with.
pub(crate) fn put_patterns(out: &mut [u8], at: usize) -> usize
    ensures { Grew patterns 2000 at out.old result out.new }
{
    let a = put(
        b"<defs>\n<pattern id='p1' width='8' height='8' patternUnits='userSpaceOnUse'><rect width='8' height='8' fill='#1b1b1b'/></pattern>\n<pattern id='p2' width='8' height='8' patternUnits='userSpaceOnUse'><rect width='8' height='8' fill='#8a8a8a'/></pattern>\n",
        out,
        at,
    );
    let b = put(
        b"<pattern id='p3' width='8' height='8' patternUnits='userSpaceOnUse'><rect width='8' height='8' fill='#fff'/><path d='M-2,10L10,-2M-2,2L2,-2M6,10L10,6' stroke='#111' stroke-width='2'/></pattern>\n<pattern id='p4' width='8' height='8' patternUnits='userSpaceOnUse'><rect width='8' height='8' fill='#bfe3f7'/><path d='M-2,-2L10,10M-2,6L2,10M6,-2L10,2' stroke='#111' stroke-width='2'/></pattern>\n",
        out,
        a,
    );
    let c = put(
        b"<pattern id='p5' width='8' height='8' patternUnits='userSpaceOnUse'><rect width='8' height='8' fill='#f4d35e'/><path d='M0,4H8' stroke='#111' stroke-width='2'/></pattern>\n<pattern id='p6' width='8' height='8' patternUnits='userSpaceOnUse'><rect width='8' height='8' fill='#f7b27a'/><path d='M4,0V8' stroke='#111' stroke-width='2'/></pattern>\n<pattern id='p7' width='8' height='8' patternUnits='userSpaceOnUse'><rect width='8' height='8' fill='#c7e9c0'/><path d='M0,4H8M4,0V8' stroke='#111' stroke-width='1'/></pattern>\n",
        out,
        b,
    );
    put(
        b"<pattern id='p8' width='8' height='8' patternUnits='userSpaceOnUse'><rect width='8' height='8' fill='#e9b8d3'/><circle cx='4' cy='4' r='2'/></pattern>\n<pattern id='p9' width='8' height='8' patternUnits='userSpaceOnUse'><rect width='8' height='8' fill='#fff'/><path d='M-2,10L10,-2M-2,2L2,-2M6,10L10,6M-2,-2L10,10M-2,6L2,10M6,-2L10,2' stroke='#111' stroke-width='1'/></pattern>\n</defs>\n",
        out,
        c,
    )
}

pub(crate) fn put_axes(out: &mut [u8], at: usize) -> usize
    ensures { Grew axes 200 at out.old result out.new }
{
    put(
        b"<text x='30' y='96'>of 100</text>\n<path d='M90,110V540H990' fill='none' stroke='#111' stroke-width='1.5'/>\n",
        out,
        at,
    )
}

// A year without any record says so.
pub(crate) fn put_empty_note(table: [[u32; 10]; 12], out: &mut [u8], at: usize) -> usize
    ensures { Grew (empty_note table) 200 at out.old result out.new }
{
    if of_year(table, 0) != 0 {
        return at;
    }
    put(
        b"<text x='540' y='330' text-anchor='middle' font-size='20' fill='#777'>no records in this year</text>\n",
        out,
        at,
    )
}
