// Why a file transfer message is refused.
ghost use Rattle.std.specs.Prelude.{◌≡◌};
ghost use Rattle.paper.specs.Reason.{all_pass, first_failed, request_checks, response_checks};
ghost use Rattle.reason.specs.Reason.{field_said, why_stops};
ghost use Rattle.archive.specs.Why.{field_number, why_record};

use reason::reason::{Field, Reason};
use reason::request::why_request;
use reason::response::why_response;
use station::records::flat;

// The field that stopped the message, and where it begins; both are 0 where the message is accepted.
#[repr(C)]
#[derive(Clone, Copy, Default)]
pub struct WhyRecord {
    pub number: u64,
    pub first: u64,
    pub second: u64,
    pub field: u64,
    pub offset: u64,
}

// The number of a field, since C reads one.
fn field_number(field: Field) -> u64
    ensures { result ≡ field_number (field_said field) }
{
    match field {
        Field::Mode => 1,
        Field::Name => 2,
        Field::FormatByte => 3,
        Field::SizeGroup => 4,
        Field::BlockLength => 5,
        Field::Position => 6,
    }
}

impl From<()> for WhyRecord {
    ghost from_gives = { λ _ r. r ≡ why_record all_pass };

    fn from(_: ()) -> WhyRecord {
        WhyRecord::default()
    }
}

impl From<Reason> for WhyRecord {
    ghost from_gives = { λ x r. r ≡ why_record (why_stops x.fault x.offset x.refusal) };

    fn from(x: Reason) -> WhyRecord {
        let e = x.refusal;
        WhyRecord {
            number: e.number() as u64,
            first: e.first() as u64,
            second: e.second() as u64,
            field: field_number(x.fault.field()),
            offset: x.offset as u64,
        }
    }
}

#[unsafe(no_mangle)]
pub extern "C" fn skr_why_request(message: &[u8]) -> WhyRecord
    ensures { result ≡ why_record (first_failed request_checks message.now) }
{
    flat(why_request(message))
}

#[unsafe(no_mangle)]
pub extern "C" fn skr_why_response(message: &[u8]) -> WhyRecord
    ensures { result ≡ why_record (first_failed response_checks message.now) }
{
    flat(why_response(message))
}
