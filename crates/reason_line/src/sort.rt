// The sort of message that the program's argument names.
ghost use Rattle.std.specs.Prelude.{◌≡◌};
ghost use Rattle.paper.specs.Reason.{first_failed};
ghost use Rattle.paper.specs.WhyProgram.{checks_of};
ghost use Rattle.reason.specs.Reason.{why_said};
ghost use Rattle.reason_line.specs.Sort.{sort_said, NamedRight};

use reason::reason::Reason;
use reason::request::why_request;
use reason::response::why_response;

#[derive(Clone, Copy, Debug, PartialEq, Eq)]
pub enum Sort {
    Request,
    Response,
}

// The sort that a word names: `request` or `response`, and no other word.
pub fn sort_named(word: &[u8]) -> Option<Sort>
    ensures { NamedRight word.now result }
{
    if word == b"request".as_slice() {
        return Some(Sort::Request);
    }
    if word == b"response".as_slice() {
        return Some(Sort::Response);
    }
    None
}

// Why a message of this sort is refused.
pub fn why(sort: Sort, message: &[u8]) -> Result<(), Reason>
    ensures { why_said result ≡ first_failed (checks_of (sort_said sort)) message.now }
{
    match sort {
        Sort::Request => why_request(message),
        Sort::Response => why_response(message),
    }
}
