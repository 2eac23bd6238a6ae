// The recorded calls on file transfer messages below the doors of `station`, modes and payloads: the letters s to y. The head of the list says what stands where in
// their inputs. SizePayload, FileSizePayload, DirSizePayload, PositionPayload, SentDataPayload and NamePayload are counted from 0.
// A function with `out` and `at` adds to the text that is the first `at` bytes of `out`, as those of crate `oracle_text` do, and for their reason takes both.
// An input of the wrong length gives an empty text, which is unlike any line, and so does a letter that is none of these.
#![tactic(auto)]

mod format;
mod mode;
mod read;
mod write;

ghost use Rattle.io.specs.Counts.{IsPrefixLen};

use crate::format::put_format;
use crate::mode::{put_mode, put_mode_of};
use crate::read::put_payload;
use crate::write::{put_encoded, put_held};

// The answer to the call that the letter stands for, after the first `at` bytes of the text. A match on letters: the recorded list has them, and each call reads the input in its own way.
pub fn put_answer(letter: u8, input: &[u8], out: &mut [u8], at: usize) -> usize
    ensures { IsPrefixLen result out.new }
{
    match letter {
        b's' => put_mode(input, out, at),
        b't' => put_mode_of(input, out, at),
        b'u' => put_format(input, out, at),
        b'v' => put_payload(input, out, at),
        b'w' => put_encoded(input, out, at),
        b'x' | b'y' => put_held(letter, input, out, at),
        _ => 0,
    }
}
