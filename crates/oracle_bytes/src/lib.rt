// The recorded calls on bytes that have a meaning, masks, names and constants, to which no door leads: the letters a to h and p to r. The head of the list
// says what each answers. Each input is one byte.
// A function with `out` and `at` adds to the text that is the first `at` bytes of `out`, as those of crate `oracle_text` do, and for their reason takes both.
// An input of another length gives an empty text, which is unlike any line, and so does a letter that is none of these.
#![tactic(auto)]

mod constants;
mod mask;
mod named;

ghost use Rattle.io.specs.Counts.{IsPrefixLen};

use crate::constants::{put_constants, put_negative_codes};
use crate::mask::{put_joined, put_matching, put_severity, put_status};
use crate::named::{put_format, put_group, put_record_number, put_sub_function};
use dtc::status::{DtcSeverityMask, DtcStatusMask};

// The answer to the call that the letter stands for, after the first `at` bytes of the text. A match on letters: the recorded list has them, and each call reads the input in its own way.
pub fn put_answer(letter: u8, input: &[u8], out: &mut [u8], at: usize) -> usize
    ensures { IsPrefixLen result out.new }
{
    let &[b] = input else {
        return 0;
    };
    match letter {
        b'a' => put_status(b, out, at),
        b'b' => put_severity(b, out, at),
        b'c' => put_joined(DtcStatusMask::from_bits(b), out, at),
        b'd' => put_joined(DtcSeverityMask::from_bits(b), out, at),
        b'e' => put_matching(b, out, at),
        b'f' => put_format(b, out, at),
        b'g' => put_group(b, out, at),
        b'h' => put_record_number(b, out, at),
        b'p' => put_constants(b, out, at),
        b'q' => put_sub_function(b, out, at),
        b'r' => put_negative_codes(b, out, at),
        _ => 0,
    }
}
