// A response read from one buffer and written anew into another. Two responses mean the same exactly if this gives the same bytes.
ghost use Rattle.paper.specs.Response.{rewrite_response};
ghost use Rattle.file_operation.specs.Rewriting.{Rewrote};

use crate::read::read_response;
use crate::write::write_response;
use file_operation::rewrite::beside_tail;
use wire::place::part_at;
use wire::refusal::Refusal;

// How many bytes were written and where the tail of what was read begins. The reader's refusals, then 7. The tail is not written.
pub fn rewrite_response(s: &[u8], out: &mut [u8]) -> Result<(usize, usize), Refusal>
    ensures { Rewrote rewrite_response s.now out.old result out.new }
{
    let (q, tail) = read_response(s)?;
    let w = write_response(
        q.kind,
        part_at(s, q.max_number_of_block_length),
        q.data_format_identifier,
        q.file_size,
        q.position,
        out,
    );
    beside_tail(w, tail)
}
