// The three sub-functions, and the byte of a request that may also ask for silence.
ghost use Rattle.std.specs.Prelude.{◌≡◌};
ghost use Rattle.paper.specs.RoutineControl.{byte_of, known_sub, control_byte};
ghost use Rattle.routine_control.specs.SubFunction.{sub_of, sub_said, suppress_said, suppressable};

use wire::refusal::Refusal;

#[derive(Clone, Copy, Debug, PartialEq, Eq)]
pub enum RoutineControlSubFunction {
    StartRoutine,
    StopRoutine,
    RequestRoutineResults,
}

// The sub-function of a byte; any byte but 1, 2 and 3 is refusal 4 with the byte.
impl TryFrom<u8> for RoutineControlSubFunction {
    type Error = Refusal;

    ghost try_from_gives = { λ b r. sub_said r ≡ known_sub b };

    #[tactic(auto, unfolding(paper::specs::RoutineControl::known_sub, paper::specs::Kind::one_of))]
    fn try_from(b: u8) -> Result<RoutineControlSubFunction, Refusal> {
        match b {
            0x01 => Ok(RoutineControlSubFunction::StartRoutine),
            0x02 => Ok(RoutineControlSubFunction::StopRoutine),
            0x03 => Ok(RoutineControlSubFunction::RequestRoutineResults),
            _ => Err(Refusal::UnknownSubFunction(b)),
        }
    }
}

// The byte of a sub-function.
impl From<RoutineControlSubFunction> for u8 {
    ghost from_gives = { λ f b. b ≡ byte_of (sub_of f) };

    fn from(f: RoutineControlSubFunction) -> u8 {
        match f {
            RoutineControlSubFunction::StartRoutine => 0x01,
            RoutineControlSubFunction::StopRoutine => 0x02,
            RoutineControlSubFunction::RequestRoutineResults => 0x03,
        }
    }
}

// The two conversions by name: docs/DIFFERENCES.md names them beside the original's.
impl RoutineControlSubFunction {
    pub fn from_byte(b: u8) -> Result<RoutineControlSubFunction, Refusal>
        ensures { sub_said result ≡ known_sub b }
    {
        RoutineControlSubFunction::try_from(b)
    }

    pub fn value(self) -> u8
        ensures { result ≡ byte_of (sub_of self) }
    {
        u8::from(self)
    }
}

// The first byte of a request: bit 0x80 asks that the positive response be suppressed, the low seven bits are the sub-function.
#[derive(Clone, Copy, Debug, PartialEq, Eq)]
pub struct SuppressablePositiveResponse {
    pub suppress_positive_response: bool,
    pub value: RoutineControlSubFunction,
}

// The low seven bits are judged, and refusal 4 carries those seven.
impl TryFrom<u8> for SuppressablePositiveResponse {
    type Error = Refusal;

    ghost try_from_gives = { λ b r. suppress_said r ≡ suppressable b };

    #[tactic(auto, unfolding(crate::specs::SubFunction::suppressable, paper::specs::RoutineControl::known_sub, paper::specs::Kind::one_of))]
    fn try_from(b: u8) -> Result<SuppressablePositiveResponse, Refusal> {
        let value = RoutineControlSubFunction::try_from(b % 128)?;
        Ok(SuppressablePositiveResponse {
            suppress_positive_response: 128 <= b,
            value,
        })
    }
}

impl From<SuppressablePositiveResponse> for u8 {
    ghost from_gives = { λ c b. b ≡ control_byte c.suppress_positive_response (sub_of c.value) };

    fn from(control: SuppressablePositiveResponse) -> u8 {
        let b = u8::from(control.value);
        if control.suppress_positive_response {
            128 + b
        } else {
            b
        }
    }
}

// The two conversions by name: docs/DIFFERENCES.md has them as the byte in and the byte out.
impl SuppressablePositiveResponse {
    pub fn from_byte(b: u8) -> Result<SuppressablePositiveResponse, Refusal>
        ensures { suppress_said result ≡ suppressable b }
    {
        SuppressablePositiveResponse::try_from(b)
    }

    pub fn to_byte(self) -> u8
        ensures { result ≡ control_byte self.suppress_positive_response (sub_of self.value) }
    {
        u8::from(self)
    }
}
