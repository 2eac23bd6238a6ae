// The desk check: is this one request good to be loaded? Document 01 adds it, and document 02 gives its rule; the original has none.
#![tactic(auto)]

ghost use Rattle.std.specs.Prelude.{◌≡◌};
ghost use Rattle.paper.specs.Desk.{desk_check};
ghost use Rattle.desk_check.specs.Desk.{PassesRight, desk_said};

use request_file_transfer::layout::{AfterName, after_name};
use request_file_transfer::read::{RequestFileTransferRequest, read_request};
use wire::refusal::Refusal;

// The rule: the sizes of what is neither packed nor encrypted, format byte 0x00, must be equal; any others pass, and so does a request without sizes.
fn passes(q: RequestFileTransferRequest) -> bool
    ensures { PassesRight q result }
{
    let size = q.size;
    match after_name(q.kind) {
        AfterName::FormatAndSizes => {
            u8::from(q.data_format_identifier) != 0x00
                || size.file_size_compressed == size.file_size_uncompressed
        }
        AfterName::Nothing | AfterName::FormatOnly => true,
    }
}

// The reader's refusals first, then 9 with how many bytes are left over, then 8.
pub fn desk_check(request: &[u8]) -> Result<(), Refusal>
    ensures { desk_said result ≡ desk_check request.now }
{
    let (q, tail) = read_request(request)?;
    let left = request.len() - tail;
    if 0 < left {
        return Err(Refusal::LeftOver(left));
    }
    if !passes(q) {
        return Err(Refusal::UnequalSizes);
    }
    Ok(())
}
