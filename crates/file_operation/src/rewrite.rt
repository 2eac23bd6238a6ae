// What a call answers that reads a message and writes it anew into another buffer:
// how many bytes were written and where in the message that was read its tail begins, or the refusal.
ghost use Rattle.std.specs.Prelude.{◌≡◌};
ghost use Rattle.file_operation.specs.Rewriting.{beside_tail};

use wire::refusal::Refusal;

// The answer of the writer, with the tail beside it.
pub fn beside_tail(w: Result<usize, Refusal>, tail: usize) -> Result<(usize, usize), Refusal>
    ensures { result ≡ beside_tail w tail }
{
    let written = w?;
    Ok((written, tail))
}
