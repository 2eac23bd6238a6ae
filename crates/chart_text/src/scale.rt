// The scale: its top, which fits the year, and its lines.
ghost use Rattle.std.specs.Prelude.{◌≡◌, ◌≤◌, ◌<◌};
ghost use Rattle.paper.specs.Chart.{fits, top_of, divisions, scale_line, scale};
ghost use Rattle.form.specs.Text.{Grew};

use form::put_form;
use loads_text::row::{all_of, refused_of};

// Where the scale ends: at so many of a hundred.
#[derive(Clone, Copy)]
pub(crate) struct Top {
    pub(crate) percent: u64,
    ghost some: { 0 < percent },
    ghost within: { percent ≤ 100 },
}

// Whether no month has more than `top` refused of a hundred.
fn fits_year(top: u64, table: [[u32; 10]; 12]) -> bool
    requires { top ≤ 100 }
    ensures { result ≡ fits top table }
{
    for row in &table {
        if top * all_of(*row) < 100 * refused_of(*row) {
            return false;
        }
    }
    true
}

impl Top {
    // The least of seven tops that fits the year.
    pub(crate) fn of(table: [[u32; 10]; 12]) -> Top
        ensures { result.percent ≡ top_of table }
    {
        for percent in [1, 2, 5, 10, 20, 50] {
            if fits_year(percent, table) {
                return Top { percent };
            }
        }
        Top { percent: 100 }
    }

    // How many parts the scale has.
    fn parts(self) -> u64
        ensures value { result ≡ divisions self.percent }
        ensures some { 0 < result }
        ensures few { result ≤ 5 }
    {
        self.percent.min(5)
    }

    // The line after `k` of its parts.
    fn put_line(self, k: u64, out: &mut [u8], at: usize) -> usize
        requires { k ≤ 5 }
        ensures { Grew (scale_line self.percent (divisions self.percent) k) 150 at out.old result out.new }
    {
        let parts = self.parts();
        let up = 430 * k / parts;
        let numbers = [
            540u64.saturating_sub(up),
            545u64.saturating_sub(up),
            k * self.percent / parts,
        ];
        put_form(
            b"<path d='M90,_H990' stroke='#ddd'/><text x='80' y='_' text-anchor='end'>_</text>\n",
            &numbers,
            out,
            at,
        )
    }

    pub(crate) fn put_scale(self, out: &mut [u8], at: usize) -> usize
        ensures { Grew (scale self.percent) 900 at out.old result out.new }
    {
        let mut end = at;
        for k in 0..self.parts() + 1 {
            end = self.put_line(k, out, end);
        }
        end
    }
}
