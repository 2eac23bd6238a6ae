// The one line that the desk's program prints of a message, and the room that it reads a message into.
#![tactic(auto)]

ghost use Rattle.std.specs.Prelude.{◌≡◌, length, replicate};
ghost use Rattle.io.specs.Counts.{IsPrefixLen};
ghost use Rattle.paper.specs.Answer.{over};
ghost use Rattle.paper.specs.DeskProgram.{desk_line};

use desk_check::desk_check;
use request_line::line::Line;
use request_line::text::put_text;
use wire::write::put_bytes;

// Room for an input: one byte more than it may have, so that a longer one is seen to be too long. All zeros.
pub fn room() -> [u8; 131073]
    ensures len { 131073 ≡ length result }
    ensures zeros { result ≡ replicate 131073 0 }
{
    [0; 131073]
}

// The text of the line about an input, from the start of `out`: all that the desk's program prints. How many bytes it has.
// Above 131,072 bytes the input is too long; else one request is judged.
pub fn desk_text(input: &[u8], out: &mut [u8; 4096]) -> usize
    ensures value { result ≡ length (desk_line input.now) }
    ensures out_after { out.new ≡ over (desk_line input.now) out.old }
    ensures prefix_len { IsPrefixLen result out.new }
{
    if 131072 < input.len() {
        return put_text(Line::TooLong, out);
    }
    match desk_check(input) {
        Ok(()) => {
            let _ = put_bytes(b"passes\n", out);
            7
        }
        Err(e) => put_text(Line::Refused(e), out),
    }
}
