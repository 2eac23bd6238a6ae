// Why a call refuses: a variant for each refusal of document 01's table and, from 10 up, of document 02, with what it carries.
ghost use Rattle.std.specs.Prelude.{◌≡◌};
ghost use Rattle.wire.specs.Refusals.{row};

#[derive(Clone, Copy, Debug, PartialEq, Eq)]
pub enum Refusal {
    // 1: the field at hand has fewer bytes than it needs, both counted from the start of the field.
    TooShort { needed: usize, available: usize },
    // 2: the name is not UTF-8, and its longest beginning that is has so many bytes; or the name, the block length or the routine record is too long, with 0.
    WrongFormat { good: usize },
    // 3: no kind has this mode byte.
    UnknownMode(u8),
    // 4: no routine sub-function has this byte.
    UnknownSubFunction(u8),
    // 5: the trouble-code number is above 0x00FFFFFF.
    NoTroubleCode(u32),
    // 6: the sizes are 0 bytes wide, or more than 16.
    BadWidth(usize),
    // 7: the room is smaller than the message.
    NoRoom { needed: usize, room: usize },
    // 8: the desk check found unequal sizes under format 0x00.
    UnequalSizes,
    // 9: the desk check found so many bytes left over.
    LeftOver(usize),
    // 10: the length is no whole number of records: the last one is cut; or lengths do not add up to their buffer.
    Cut,
    // 11: the record at this place has a field out of its range, or a severity that its listing can't carry, or none where it must; or an index is not the listing's own, or a
    // negative answer is to a service that we don't have, or a refusal is asked for its words by a number that none has, with 0.
    OutOfRange { place: usize },
    // 12: there are more whole records, or messages, than the call takes.
    TooMany,
    // 13: the record at this place is a step that the state or its kind does not allow.
    NotAllowed { place: usize },
    // 14: the block at this place has neither the next counter nor the last one.
    WrongCounter { place: usize },
    // 15: the record at this place has a service byte that is none of a transfer's; or a message's service byte, or a listing's first bytes, are none that we have, with 0.
    UnknownService { place: usize },
    // 16: no record of the listing has the code.
    NoSuchCode,
    // 17: the record at this place of a listing has a code that stood before it.
    Repeated { place: usize },
    // 18: the character at this place of a text can't stand there; the end of the text counts as its length.
    BadCharacter { place: usize },
}

// Three methods, and no `From`: C reads a refusal as three numbers, and each name says which.
impl Refusal {
    // The number in the table.
    pub fn number(self) -> usize
        ensures { result ≡ (row self).number }
    {
        match self {
            Refusal::TooShort { .. } => 1,
            Refusal::WrongFormat { .. } => 2,
            Refusal::UnknownMode(_) => 3,
            Refusal::UnknownSubFunction(_) => 4,
            Refusal::NoTroubleCode(_) => 5,
            Refusal::BadWidth(_) => 6,
            Refusal::NoRoom { .. } => 7,
            Refusal::UnequalSizes => 8,
            Refusal::LeftOver(_) => 9,
            Refusal::Cut => 10,
            Refusal::OutOfRange { .. } => 11,
            Refusal::TooMany => 12,
            Refusal::NotAllowed { .. } => 13,
            Refusal::WrongCounter { .. } => 14,
            Refusal::UnknownService { .. } => 15,
            Refusal::NoSuchCode => 16,
            Refusal::Repeated { .. } => 17,
            Refusal::BadCharacter { .. } => 18,
        }
    }

    // The first of the two values that it carries, 0 where it carries none.
    pub fn first(self) -> usize
        ensures { result ≡ (row self).first }
    {
        match self {
            Refusal::TooShort { needed, .. } => needed,
            Refusal::WrongFormat { good } => good,
            Refusal::UnknownMode(b) => usize::from(b),
            Refusal::UnknownSubFunction(b) => usize::from(b),
            Refusal::NoTroubleCode(n) => n as usize,
            Refusal::BadWidth(w) => w,
            Refusal::NoRoom { needed, .. } => needed,
            Refusal::LeftOver(n) => n,
            Refusal::OutOfRange { place } => place,
            Refusal::NotAllowed { place } => place,
            Refusal::WrongCounter { place } => place,
            Refusal::UnknownService { place } => place,
            Refusal::Repeated { place } => place,
            Refusal::BadCharacter { place } => place,
            Refusal::UnequalSizes | Refusal::Cut | Refusal::TooMany | Refusal::NoSuchCode => 0,
        }
    }

    // The second of them, 0 where it carries fewer.
    pub fn second(self) -> usize
        ensures { result ≡ (row self).second }
    {
        match self {
            Refusal::TooShort { available, .. } => available,
            Refusal::NoRoom { room, .. } => room,
            _ => 0,
        }
    }
}
