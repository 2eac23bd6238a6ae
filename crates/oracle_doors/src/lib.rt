// The recorded calls through the doors of crate station: the letters A to M. The head of the list says what stands where in their inputs.
// A function with `out` and `at` adds to the text that is the first `at` bytes of `out`, as those of crate `oracle_text` do, and for their reason takes both.
// An input of the wrong length gives an empty text, which is unlike any line, and so does a letter that is none of these.
#![tactic(auto)]

mod read;
mod room;

ghost use Rattle.io.specs.Counts.{IsPrefixLen};

use crate::read::{dtc_from_number, put_next, put_routine, put_transfer, valid_up_to};
use crate::room::put_in_room;
use station::routine::{skr_read_routine_request, skr_read_routine_response};
use station::transfer::{skr_read_request, skr_read_response};
use station::trouble::skr_dtc_next;

// The answer to the call that the letter stands for, after the first `at` bytes of the text. A match on letters: the recorded list has them, and each call reads the input in its own way.
pub fn put_answer(letter: u8, input: &[u8], out: &mut [u8], at: usize) -> usize
    ensures { IsPrefixLen result out.new }
{
    match letter {
        b'A' => put_transfer(skr_read_request(input), out, at),
        b'B' => put_transfer(skr_read_response(input), out, at),
        b'C' => put_routine(skr_read_routine_request(input), out, at),
        b'D' => put_routine(skr_read_routine_response(input), out, at),
        b'K' => valid_up_to(input, out, at),
        b'L' => dtc_from_number(input, out, at),
        b'M' => put_next(skr_dtc_next(input), out, at),
        _ => put_in_room(letter, input, out, at),
    }
}
