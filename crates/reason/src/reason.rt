// A reason: what is wrong, where the field begins that it is about, and the refusal.
ghost use Rattle.std.specs.Prelude.{◌≡◌};
ghost use Rattle.paper.specs.Reason.{field_of};
ghost use Rattle.reason.specs.Reason.{field_said, fault_said, reason_of};

use wire::refusal::Refusal;

// The fields of a file transfer request or response.
#[derive(Clone, Copy, Debug, PartialEq, Eq)]
pub enum Field {
    Mode,
    Name,
    FormatByte,
    SizeGroup,
    BlockLength,
    Position,
}

// What is wrong: one for each check.
#[derive(Clone, Copy, Debug, PartialEq, Eq)]
pub enum Fault {
    // The mode is missing: the message is empty.
    NoMode,
    // The name's length is missing, or one of its two bytes.
    NoNameLength,
    // Bytes of the name are missing.
    CutName,
    // The name is not UTF-8.
    NotUtf8,
    // No kind has this mode byte.
    NoSuchMode,
    // The format byte is missing.
    NoFormat,
    // The width of the sizes is missing, or one of its two bytes in a response.
    NoWidth,
    // Bytes of the sizes are missing.
    CutSizes,
    // The sizes are 0 bytes wide, or more than 16.
    WrongWidth,
    // The count of the block length is missing.
    NoCount,
    // Bytes of the block length are missing.
    CutBlock,
    // Bytes of the position are missing.
    CutPosition,
}

impl Fault {
    // The field that it is about.
    pub fn field(self) -> Field
        ensures { field_said result ≡ field_of (fault_said self) }
    {
        match self {
            Fault::NoMode | Fault::NoSuchMode => Field::Mode,
            Fault::NoNameLength | Fault::CutName | Fault::NotUtf8 => Field::Name,
            Fault::NoFormat => Field::FormatByte,
            Fault::NoWidth | Fault::CutSizes | Fault::WrongWidth => Field::SizeGroup,
            Fault::NoCount | Fault::CutBlock => Field::BlockLength,
            Fault::CutPosition => Field::Position,
        }
    }
}

// The offset counts bytes from the start of the message to where the field begins.
#[derive(Clone, Copy, Debug, PartialEq, Eq)]
pub struct Reason {
    pub refusal: Refusal,
    pub offset: usize,
    pub fault: Fault,
}

impl Reason {
    pub(crate) fn new(fault: Fault, offset: usize, refusal: Refusal) -> Reason
        ensures { result ≡ reason_of fault offset refusal }
    {
        Reason {
            refusal,
            offset,
            fault,
        }
    }
}
