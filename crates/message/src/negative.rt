// Negative answers: 0x7F, the service that is answered, and a code. A code that does not stand in that service's list is read and written all the same.
ghost use Rattle.std.specs.Prelude.{◌≡◌};
ghost use Rattle.paper.specs.WholeMessage.{stands, list_of, write_negative};
ghost use Rattle.wire.specs.Writing.{Wrote};
ghost use Rattle.message.specs.Service.{service_of};

use crate::service::{Service, Sort};
use routine_control::nack::{
    request_file_transfer_allowed_nack_codes, routine_control_allowed_nack_codes,
};
use wire::refusal::Refusal;
use wire::write::put_bytes;

#[derive(Clone, Copy, Debug, PartialEq, Eq)]
pub struct NegativeAnswer {
    pub service: Service,
    pub code: u8,
    pub listed: bool,
}

// Whether the code stands in the list of the service.
pub fn is_listed(service: Service, code: u8) -> bool
    ensures { result ≡ stands code (list_of (service_of service)) }
{
    let codes = match service {
        Service::FileTransfer => request_file_transfer_allowed_nack_codes(),
        Service::RoutineControl => routine_control_allowed_nack_codes(),
    };
    codes.contains(&code)
}

// A service that we don't have is 11, too little room refusal 7; refused, nothing changes.
// The service is a byte, and no `Service`: C hands one over, and 11 is this call's own promise.
#[tactic(auto, unfolding(paper::specs::WholeMessage::write_negative))]
pub fn write_negative(service: u8, code: u8, out: &mut [u8]) -> Result<usize, Refusal>
    ensures { Wrote (write_negative service code) out.old result out.new }
{
    let _ = Service::try_from(service)?;
    put_bytes(&[u8::from(Sort::NegativeAnswer), service, code], out)
}
