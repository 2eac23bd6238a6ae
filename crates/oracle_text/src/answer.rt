// What several answers have: yes or no, a refusal, how many bytes were written.
// `out` and `at` stand side by side for the reason that text.rt gives.
ghost use Rattle.std.specs.Prelude.{◌≡◌};
ghost use Rattle.paper.specs.Choice.{pick};
ghost use Rattle.wire.specs.Refusals.{row};
ghost use Rattle.wire.specs.Writing.{told};
ghost use Rattle.oracle_text.specs.Text.{Stands, text, add_refused, add_written};

use crate::text::{put_number, put_numbers};
use wire::refusal::Refusal;

// 1 for yes.
pub fn flag(yes: bool) -> u64
    ensures { result ≡ pick yes 1 0 }
{
    u64::from(yes)
}

// A refusal, and zeros for what was not read.
pub fn put_refused(e: Refusal, zeros: usize, out: &mut [u8], at: usize) -> usize
    ensures { Stands (add_refused (row e) zeros (text at out.old)) result out.new }
{
    let numbers = [e.number() as u64, e.first() as u64, e.second() as u64];
    let mut end = put_numbers(&numbers, out, at);
    for _zero in 0..zeros {
        end = put_number(0, out, end);
    }
    end
}

// How many bytes were written, or the refusal.
pub fn put_written(a: Result<usize, Refusal>, out: &mut [u8], at: usize) -> usize
    ensures { Stands (add_written (told a) (text at out.old)) result out.new }
{
    match a {
        Ok(n) => {
            let numbers = [0, 0, 0, n as u64];
            put_numbers(&numbers, out, at)
        }
        Err(e) => put_refused(e, 1, out, at),
    }
}
