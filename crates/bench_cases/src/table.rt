// Document 01's bench table, in its order: what a row says, and the call that tries it. P marks the rows that are proved too.
use crate::rows::{
    name_is, number_is, number_refused, request_is, request_refused, response_is, rewritten_to,
    routine_request_is, routine_response_refused, width_is,
};
use crate::tally::Tally;
use file_operation::mode::FileOperationMode;
use routine_control::sub_function::RoutineControlSubFunction;
use std::io;
use wire::refusal::Refusal;
use wire::size::Size;

fn request_rows(rt: &impl Print, tally: &mut Tally) -> io::Result<()> {
    for (what, right) in [
        (
            "P request 02 00 01 61: DeleteFile, name 61",
            request_is(
                b"\x02\x00\x01\x61",
                FileOperationMode::DeleteFile,
                b"a",
                0,
                0,
                0,
            ),
        ),
        (
            "P request 01 00 01 61 00 01 00 00: AddFile, sizes 0 and 0",
            request_is(
                b"\x01\x00\x01\x61\x00\x01\x00\x00",
                FileOperationMode::AddFile,
                b"a",
                0,
                0,
                0,
            ),
        ),
        (
            "P request 01 00 01 61 11 02 00 FF 01 00: sizes 255 and 256",
            request_is(
                b"\x01\x00\x01\x61\x11\x02\x00\xFF\x01\x00",
                FileOperationMode::AddFile,
                b"a",
                0x11,
                255,
                256,
            ),
        ),
        (
            "P request 01 00 01 61 11 03 00 00 FF 00 01 00: same meaning as the row above",
            request_is(
                b"\x01\x00\x01\x61\x11\x03\x00\x00\xFF\x00\x01\x00",
                FileOperationMode::AddFile,
                b"a",
                0x11,
                255,
                256,
            ),
        ),
        (
            "P request 01 00 01 61 11 03 00 00 FF 00 01 00: rewritten to that row",
            rewritten_to(
                b"\x01\x00\x01\x61\x11\x03\x00\x00\xFF\x00\x01\x00",
                b"\x01\x00\x01\x61\x11\x02\x00\xFF\x01\x00",
            ),
        ),
        (
            "P request 01 00 01 61 00 00: 6, width 0",
            request_refused(b"\x01\x00\x01\x61\x00\x00", Refusal::BadWidth(0)),
        ),
        (
            "P request 01: 1, needed 2, available 0",
            request_refused(
                b"\x01",
                Refusal::TooShort {
                    needed: 2,
                    available: 0,
                },
            ),
        ),
        (
            "P request 07 00 02 61: 1, needed 4, available 3",
            request_refused(
                b"\x07\x00\x02\x61",
                Refusal::TooShort {
                    needed: 4,
                    available: 3,
                },
            ),
        ),
        (
            "P request 07 00 01 FF: 2",
            request_refused(b"\x07\x00\x01\xFF", Refusal::WrongFormat { good: 0 }),
        ),
        (
            "P request 07 00 01 61: 3, byte 7",
            request_refused(b"\x07\x00\x01\x61", Refusal::UnknownMode(7)),
        ),
    ] {
        tally.tried(rt, what, right)?;
    }
    Ok(())
}

// Responses and routine messages, then the rows about widths.
fn response_and_routine_rows(rt: &impl Print, tally: &mut Tally) -> io::Result<()> {
    for (what, right) in [
        (
            "P response 05 00 00 00 01 00: ReadDir, size 0",
            response_is(
                b"\x05\x00\x00\x00\x01\x00",
                FileOperationMode::ReadDir,
                b"",
                0,
                0,
            ),
        ),
        (
            "P routine request 81 02 03 AA: suppress, start, 0x0203, record AA",
            routine_request_is(
                b"\x81\x02\x03\xAA",
                true,
                RoutineControlSubFunction::StartRoutine,
                0x0203,
                b"\xAA",
            ),
        ),
        (
            "P routine response 81 02 03: 4, byte 0x81",
            routine_response_refused(b"\x81\x02\x03", Refusal::UnknownSubFunction(0x81)),
        ),
        (
            "  request width 17 and 33 bytes after it: 1, needed 35, available 34",
            request_refused(
                b"\x01\x00\x01\x61\x00\x11\x00\x00\x00\x00\x00\x00\x00\x00\x00\x00\x00\x00\x00\x00\x00\x00\x00\x00\x00\x00\x00\x00\x00\x00\x00\x00\x00\x00\x00\x00\x00\x00\x00",
                Refusal::TooShort {
                    needed: 35,
                    available: 34,
                },
            ),
        ),
        (
            "  request width 17 and 34 bytes after it: 6, width 17",
            request_refused(
                b"\x01\x00\x01\x61\x00\x11\x00\x00\x00\x00\x00\x00\x00\x00\x00\x00\x00\x00\x00\x00\x00\x00\x00\x00\x00\x00\x00\x00\x00\x00\x00\x00\x00\x00\x00\x00\x00\x00\x00\x00",
                Refusal::BadWidth(17),
            ),
        ),
        (
            "  larger size 2^64 - 1: width 8",
            width_is(
                Size {
                    high: 0,
                    low: 0xFFFF_FFFF_FFFF_FFFF,
                },
                8,
            ),
        ),
        (
            "  larger size 2^64: width 9",
            width_is(Size { high: 1, low: 0 }, 9),
        ),
        (
            "  larger size 2^128 - 1: width 16",
            width_is(
                Size {
                    high: 0xFFFF_FFFF_FFFF_FFFF,
                    low: 0xFFFF_FFFF_FFFF_FFFF,
                },
                16,
            ),
        ),
    ] {
        tally.tried(rt, what, right)?;
    }
    Ok(())
}

fn name_and_number_rows(rt: &impl Print, tally: &mut Tally) -> io::Result<()> {
    for (what, right) in [
        ("  name C0 80: refused", name_is(b"\xC0\x80", false)),
        ("  name ED A0 80: refused", name_is(b"\xED\xA0\x80", false)),
        (
            "  name F4 90 80 80: refused",
            name_is(b"\xF4\x90\x80\x80", false),
        ),
        (
            "  name F4 8F BF BF: accepted",
            name_is(b"\xF4\x8F\xBF\xBF", true),
        ),
        (
            "  number 0x00FFFFFF: FF FF FF",
            number_is(0x00FF_FFFF, 0xFF, 0xFF, 0xFF),
        ),
        (
            "  number 0x01000000: 5",
            number_refused(0x0100_0000, Refusal::NoTroubleCode(0x0100_0000)),
        ),
    ] {
        tally.tried(rt, what, right)?;
    }
    Ok(())
}

pub(crate) fn all_rows(rt: &impl Print, tally: &mut Tally) -> io::Result<()> {
    request_rows(rt, tally)?;
    response_and_routine_rows(rt, tally)?;
    name_and_number_rows(rt, tally)
}
