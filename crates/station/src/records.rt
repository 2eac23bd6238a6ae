// The records that cross the doors: numbers and flags in a fixed layout, since C reads them. Each begins with the refusal's number (0 for accepted) and the two values that it carries;
// after a refusal every other field is 0.
ghost use Rattle.std.specs.Prelude.{◌≡◌};
ghost use Rattle.paper.specs.Answer.{accepted, refused};
ghost use Rattle.wire.specs.Refusals.{row};
ghost use Rattle.station.specs.Records.{refused_transfer, refused_routine, written_record, refused_rewriting, desk_record, code_record, refused_next};
ghost use Rattle.station.specs.Flat.{RecordOf, accepted_rewriting};

use wire::refusal::Refusal;

// A file transfer message that was read: `start` and `len` are the place of the name or of the block length.
#[repr(C)]
#[derive(Clone, Copy, Default)]
pub struct FileTransferRecord {
    pub number: u64,
    pub first: u64,
    pub second: u64,
    pub kind: u64,
    pub start: u64,
    pub len: u64,
    pub format: u64,
    pub uncompressed_high: u64,
    pub uncompressed_low: u64,
    pub compressed_high: u64,
    pub compressed_low: u64,
    pub position: u64,
    pub tail: u64,
}

// A routine message that was read: `start` and `len` are the place of its record.
#[repr(C)]
#[derive(Clone, Copy, Default)]
pub struct RoutineRecord {
    pub number: u64,
    pub first: u64,
    pub second: u64,
    pub suppress: u64,
    pub sub_function: u64,
    pub identifier: u64,
    pub start: u64,
    pub len: u64,
}

// How many bytes were written.
#[repr(C)]
#[derive(Clone, Copy, Default)]
pub struct WrittenRecord {
    pub number: u64,
    pub first: u64,
    pub second: u64,
    pub written: u64,
}

// How many bytes a rewriting wrote, and where the message that it read ends: what follows there is its tail.
#[repr(C)]
#[derive(Clone, Copy, Default)]
pub struct RewrittenRecord {
    pub number: u64,
    pub first: u64,
    pub second: u64,
    pub written: u64,
    pub tail: u64,
}

#[repr(C)]
#[derive(Clone, Copy, Default)]
pub struct DeskRecord {
    pub number: u64,
    pub first: u64,
    pub second: u64,
}

#[repr(C)]
#[derive(Clone, Copy, Default)]
pub struct TroubleCodeRecord {
    pub number: u64,
    pub first: u64,
    pub second: u64,
    pub high: u64,
    pub middle: u64,
    pub low: u64,
}

// The next trouble code of a list, where there is one (`found` is 0 or 1), and where the list goes on.
#[repr(C)]
#[derive(Clone, Copy, Default)]
pub struct NextTroubleCodeRecord {
    pub number: u64,
    pub first: u64,
    pub second: u64,
    pub found: u64,
    pub high: u64,
    pub middle: u64,
    pub low: u64,
    pub tail: u64,
}

// The record of an answer: of what was accepted, or of the refusal.
pub fn flat<A: Into<R>, E: Into<R>, R>(answer: Result<A, E>) -> R
    ensures { RecordOf A.converts E.converts answer result }
{
    match answer {
        Ok(accepted) => accepted.into(),
        Err(refused) => refused.into(),
    }
}

// What a refusal says, here and in each record that has a `From<Refusal>`: to C the three numbers are the record's own first fields, so each takes them by itself.
impl From<Refusal> for FileTransferRecord {
    ghost from_gives = { λ e r. r ≡ refused_transfer (row e) };

    fn from(e: Refusal) -> FileTransferRecord {
        FileTransferRecord {
            number: e.number() as u64,
            first: e.first() as u64,
            second: e.second() as u64,
            ..FileTransferRecord::default()
        }
    }
}

impl From<Refusal> for RoutineRecord {
    ghost from_gives = { λ e r. r ≡ refused_routine (row e) };

    fn from(e: Refusal) -> RoutineRecord {
        RoutineRecord {
            number: e.number() as u64,
            first: e.first() as u64,
            second: e.second() as u64,
            ..RoutineRecord::default()
        }
    }
}

// What a writer that wrote hands out.
impl From<usize> for WrittenRecord {
    ghost from_gives = { λ written r. r ≡ written_record (accepted written) };

    fn from(written: usize) -> WrittenRecord {
        WrittenRecord {
            written: written as u64,
            ..WrittenRecord::default()
        }
    }
}

// What a writer that refuses hands out.
impl From<Refusal> for WrittenRecord {
    ghost from_gives = { λ e r. r ≡ written_record (refused (row e)) };

    fn from(e: Refusal) -> WrittenRecord {
        WrittenRecord {
            number: e.number() as u64,
            first: e.first() as u64,
            second: e.second() as u64,
            ..WrittenRecord::default()
        }
    }
}

impl From<(usize, usize)> for RewrittenRecord {
    ghost from_gives = { λ x r. r ≡ accepted_rewriting x.0 x.1 };

    fn from((written, tail): (usize, usize)) -> RewrittenRecord {
        RewrittenRecord {
            written: written as u64,
            tail: tail as u64,
            ..RewrittenRecord::default()
        }
    }
}

impl From<Refusal> for RewrittenRecord {
    ghost from_gives = { λ e r. r ≡ refused_rewriting (row e) };

    fn from(e: Refusal) -> RewrittenRecord {
        RewrittenRecord {
            number: e.number() as u64,
            first: e.first() as u64,
            second: e.second() as u64,
            ..RewrittenRecord::default()
        }
    }
}

impl From<()> for DeskRecord {
    ghost from_gives = { λ passed r. r ≡ desk_record (accepted passed) };

    fn from(_: ()) -> DeskRecord {
        DeskRecord::default()
    }
}

impl From<Refusal> for DeskRecord {
    ghost from_gives = { λ e r. r ≡ desk_record (refused (row e)) };

    fn from(e: Refusal) -> DeskRecord {
        DeskRecord {
            number: e.number() as u64,
            first: e.first() as u64,
            second: e.second() as u64,
        }
    }
}

impl From<Refusal> for TroubleCodeRecord {
    ghost from_gives = { λ e r. r ≡ code_record (refused (row e)) };

    fn from(e: Refusal) -> TroubleCodeRecord {
        TroubleCodeRecord {
            number: e.number() as u64,
            first: e.first() as u64,
            second: e.second() as u64,
            ..TroubleCodeRecord::default()
        }
    }
}

impl From<Refusal> for NextTroubleCodeRecord {
    ghost from_gives = { λ e r. r ≡ refused_next (row e) };

    fn from(e: Refusal) -> NextTroubleCodeRecord {
        NextTroubleCodeRecord {
            number: e.number() as u64,
            first: e.first() as u64,
            second: e.second() as u64,
            ..NextTroubleCodeRecord::default()
        }
    }
}
