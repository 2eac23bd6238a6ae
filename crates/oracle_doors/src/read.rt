// The calls that only read, and the records that they answer: each field as a number, in the order of the record. Each record is one that C reads, so the fields of each are named one by one.
ghost use Rattle.io.specs.Counts.{IsPrefixLen};

use oracle_text::text::put_numbers;
use station::records::{
    FileTransferRecord, NextTroubleCodeRecord, RoutineRecord, TroubleCodeRecord,
};
use station::trouble::{skr_dtc_from_number, skr_valid_up_to};

pub(crate) fn put_transfer(r: FileTransferRecord, out: &mut [u8], at: usize) -> usize
    ensures { IsPrefixLen result out.new }
{
    let numbers = [
        r.number,
        r.first,
        r.second,
        r.kind,
        r.start,
        r.len,
        r.format,
        r.uncompressed_high,
        r.uncompressed_low,
        r.compressed_high,
        r.compressed_low,
        r.position,
        r.tail,
    ];
    put_numbers(&numbers, out, at)
}

pub(crate) fn put_routine(r: RoutineRecord, out: &mut [u8], at: usize) -> usize
    ensures { IsPrefixLen result out.new }
{
    let numbers = [
        r.number,
        r.first,
        r.second,
        r.suppress,
        r.sub_function,
        r.identifier,
        r.start,
        r.len,
    ];
    put_numbers(&numbers, out, at)
}

fn put_code(r: TroubleCodeRecord, out: &mut [u8], at: usize) -> usize
    ensures { IsPrefixLen result out.new }
{
    let numbers = [r.number, r.first, r.second, r.high, r.middle, r.low];
    put_numbers(&numbers, out, at)
}

pub(crate) fn put_next(r: NextTroubleCodeRecord, out: &mut [u8], at: usize) -> usize
    ensures { IsPrefixLen result out.new }
{
    let numbers = [
        r.number, r.first, r.second, r.found, r.high, r.middle, r.low, r.tail,
    ];
    put_numbers(&numbers, out, at)
}

pub(crate) fn valid_up_to(input: &[u8], out: &mut [u8], at: usize) -> usize
    ensures { IsPrefixLen result out.new }
{
    put_numbers(&[skr_valid_up_to(input)], out, at)
}

pub(crate) fn dtc_from_number(input: &[u8], out: &mut [u8], at: usize) -> usize
    ensures { IsPrefixLen result out.new }
{
    let &[a, b, c, d] = input else {
        return 0;
    };
    put_code(
        skr_dtc_from_number(u32::from_be_bytes([a, b, c, d])),
        out,
        at,
    )
}
