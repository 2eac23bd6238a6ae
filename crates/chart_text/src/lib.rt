// What the program `wrong_loads_chart` prints of the year's records: a picture of the year, as an SVG.
// Each function adds its part to the text that stands in `out` up to `at`, as those of `form` do, and for their reason takes both.
#![tactic(auto)]

mod bars;
mod frame;
mod legend;
mod scale;

ghost use Rattle.std.specs.Prelude.{◌≡◌, length};
ghost use Rattle.io.specs.Counts.{IsPrefixLen};
ghost use Rattle.paper.specs.Answer.{over, refused};
ghost use Rattle.paper.specs.Chart.{chart, chart_for, too_long_drawn, chart_text};
ghost use Rattle.wire.specs.Refusals.{row};
ghost use Rattle.form.specs.Text.{Grew};

use crate::bars::put_months;
use crate::frame::{put_axes, put_closing, put_empty_note, put_heading, put_opening, put_patterns};
use crate::legend::put_legend;
use crate::scale::Top;
use form::{put, put_form};
use tally::count_records;
use wire::refusal::Refusal;

// The picture of a table.
fn put_chart(table: [[u32; 10]; 12], out: &mut [u8]) -> usize
    ensures { Grew (chart table) 29000 0 out.old result out.new }
{
    let top = Top::of(table);
    let a = put_opening(out, 0);
    let b = put_heading(table, out, a);
    let c = put_patterns(out, b);
    let d = top.put_scale(out, c);
    let e = put_months(table, top, out, d);
    let f = put_axes(out, e);
    let g = put_empty_note(table, out, f);
    let h = put_legend(table, out, g);
    put_closing(out, h)
}

// `refused N A B` in a picture that has nothing else.
fn put_refusal(refusal: Refusal, out: &mut [u8]) -> usize
    ensures { Grew (chart_for (refused (row refusal))) 500 0 out.old result out.new }
{
    let a = put_opening(out, 0);
    let numbers = [
        refusal.number() as u64,
        refusal.first() as u64,
        refusal.second() as u64,
    ];
    let b = put_form(
        b"<text x='90' y='48' font-size='26'>refused _ _ _</text>\n",
        &numbers,
        out,
        a,
    );
    put_closing(out, b)
}

// `too long` likewise.
fn put_too_long(out: &mut [u8]) -> usize
    ensures { Grew too_long_drawn 500 0 out.old result out.new }
{
    let a = put_opening(out, 0);
    let b = put(
        b"<text x='90' y='48' font-size='26'>too long</text>\n",
        out,
        a,
    );
    put_closing(out, b)
}

// All that the program prints of an input, from the start of `out`. How many bytes it has.
// Above 65,536 bytes the input is too long; else its records are counted and drawn.
pub fn chart_text(input: &[u8], out: &mut [u8; 65536]) -> usize
    ensures value { result ≡ length (chart_text input.now) }
    ensures out_after { out.new ≡ over (chart_text input.now) out.old }
    ensures prefix_len { IsPrefixLen result out.new }
{
    if 65536 < input.len() {
        return put_too_long(out);
    }
    match count_records(input) {
        Ok(table) => put_chart(table, out),
        Err(refusal) => put_refusal(refusal, out),
    }
}
