// The recorded calls on trouble codes and their fields to which no door leads: the letters i to o. The head of the list says what stands where in their inputs.
// A function with `out` and `at` adds to the text that is the first `at` bytes of `out`, and answers how many they then are, as those of crate `oracle_text` do, and for their reason takes both.
// An input of the wrong length gives an empty text, which is unlike any line, and so does a letter that is none of these.
#![tactic(auto)]

mod code;
mod field;
mod number;

ghost use Rattle.io.specs.Counts.{IsPrefixLen};

use crate::code::{put_code, put_encoded, put_equal, put_number};
use crate::field::{put_field, put_field_encoded};
use crate::number::put_codes_of;

// The answer to the call that the letter stands for, after the first `at` bytes of the text.
pub fn put_answer(letter: u8, input: &[u8], out: &mut [u8], at: usize) -> usize
    ensures { IsPrefixLen result out.new }
{
    match letter {
        b'i' => put_field(input, out, at),
        b'j' => put_field_encoded(input, out, at),
        b'k' => put_number(input, out, at),
        b'l' => put_codes_of(input, out, at),
        b'm' => put_equal(input, out, at),
        b'n' => put_code(input, out, at),
        b'o' => put_encoded(input, out, at),
        _ => 0,
    }
}
