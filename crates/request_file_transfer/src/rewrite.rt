// A request read from one buffer and written anew into another. Two requests mean the same exactly if this gives the same bytes.
ghost use Rattle.paper.specs.Request.{rewrite_request};
ghost use Rattle.file_operation.specs.Rewriting.{Rewrote};

use crate::read::read_request;
use crate::write::write_named;
use file_operation::rewrite::beside_tail;
use wire::place::part_at;
use wire::refusal::Refusal;

// How many bytes were written and where the tail of what was read begins. The reader's refusals, then 7. The tail is not written, and the name is checked once, by the reader.
pub fn rewrite_request(s: &[u8], out: &mut [u8]) -> Result<(usize, usize), Refusal>
    ensures { Rewrote rewrite_request s.now out.old result out.new }
{
    let (q, tail) = read_request(s)?;
    let name = part_at(s, q.file_path_and_name);
    let w = write_named(q.kind, name, q.data_format_identifier, q.size, out);
    beside_tail(w, tail)
}
