// Service bytes: the five sorts of a whole message, and the two services that a negative answer can be to.
ghost use Rattle.std.specs.Prelude.{◌≡◌};
ghost use Rattle.paper.specs.WholeMessage.{service_byte, known_sort, request_byte, known_service};
ghost use Rattle.message.specs.Service.{sort_of, sort_said, service_of, service_said};

use wire::refusal::Refusal;

#[derive(Clone, Copy, Debug, PartialEq, Eq)]
pub enum Sort {
    FileRequest,
    RoutineRequest,
    FileResponse,
    RoutineResponse,
    NegativeAnswer,
}

// The sort of a message that begins with this byte; a byte that begins none is 15.
impl TryFrom<u8> for Sort {
    type Error = Refusal;

    ghost try_from_gives = { λ b r. sort_said r ≡ known_sort b };

    #[tactic(auto, unfolding(paper::specs::WholeMessage::known_sort, paper::specs::Kind::one_of))]
    fn try_from(b: u8) -> Result<Sort, Refusal> {
        match b {
            0x38 => Ok(Sort::FileRequest),
            0x31 => Ok(Sort::RoutineRequest),
            0x78 => Ok(Sort::FileResponse),
            0x71 => Ok(Sort::RoutineResponse),
            0x7F => Ok(Sort::NegativeAnswer),
            _ => Err(Refusal::UnknownService { place: 0 }),
        }
    }
}

// The service byte of a sort.
impl From<Sort> for u8 {
    ghost from_gives = { λ sort b. b ≡ service_byte (sort_of sort) };

    fn from(sort: Sort) -> u8 {
        match sort {
            Sort::FileRequest => 0x38,
            Sort::RoutineRequest => 0x31,
            Sort::FileResponse => 0x78,
            Sort::RoutineResponse => 0x71,
            Sort::NegativeAnswer => 0x7F,
        }
    }
}

// The two conversions by name: they are public, with laws of their own (`sort_from_byte_determined`, `sort_value_determined`).
impl Sort {
    pub fn from_byte(b: u8) -> Result<Sort, Refusal>
        ensures { sort_said result ≡ known_sort b }
    {
        Sort::try_from(b)
    }

    pub fn value(self) -> u8
        ensures { result ≡ service_byte (sort_of self) }
    {
        u8::from(self)
    }
}

// The services that we have.
#[derive(Clone, Copy, Debug, PartialEq, Eq)]
pub enum Service {
    FileTransfer,
    RoutineControl,
}

// The service of a request's byte; any byte but 0x38 and 0x31 is 11.
impl TryFrom<u8> for Service {
    type Error = Refusal;

    ghost try_from_gives = { λ b r. service_said r ≡ known_service b };

    #[tactic(auto, unfolding(paper::specs::WholeMessage::known_service, paper::specs::Kind::one_of))]
    fn try_from(b: u8) -> Result<Service, Refusal> {
        match b {
            0x38 => Ok(Service::FileTransfer),
            0x31 => Ok(Service::RoutineControl),
            _ => Err(Refusal::OutOfRange { place: 0 }),
        }
    }
}

// The byte of its requests.
impl From<Service> for u8 {
    ghost from_gives = { λ service b. b ≡ request_byte (service_of service) };

    fn from(service: Service) -> u8 {
        match service {
            Service::FileTransfer => 0x38,
            Service::RoutineControl => 0x31,
        }
    }
}

// The two conversions by name: they are public, with laws of their own (`service_from_byte_determined`, `service_value_determined`).
impl Service {
    pub fn from_byte(b: u8) -> Result<Service, Refusal>
        ensures { service_said result ≡ known_service b }
    {
        Service::try_from(b)
    }

    pub fn value(self) -> u8
        ensures { result ≡ request_byte (service_of self) }
    {
        u8::from(self)
    }
}
