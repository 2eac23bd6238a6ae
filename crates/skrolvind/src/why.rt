// Why a file transfer message is refused.
ghost use Rattle.std.specs.Prelude.{◌≡◌};
ghost use Rattle.paper.specs.Reason.{first_failed, request_checks, response_checks};
ghost use Rattle.archive.specs.Why.{why_record};

use archive::why::WhyRecord;

#[unsafe(no_mangle)]
pub extern "C" fn skr_why_request(message: &[u8]) -> WhyRecord
    ensures { result ≡ why_record (first_failed request_checks message.now) }
{
    archive::why::skr_why_request(message)
}

#[unsafe(no_mangle)]
pub extern "C" fn skr_why_response(message: &[u8]) -> WhyRecord
    ensures { result ≡ why_record (first_failed response_checks message.now) }
{
    archive::why::skr_why_response(message)
}
