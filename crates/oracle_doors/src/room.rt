// The calls that write: the letters E to J. The first two bytes of an input are always the length of the room.
ghost use Rattle.io.specs.Counts.{IsPrefixLen};

use oracle_text::input::{number_at, size_at, two_at};
use oracle_text::room::full_room;
use oracle_text::text::{put_hex, put_numbers};
use station::records::{RewrittenRecord, WrittenRecord};
use station::routine::{skr_write_routine_request, skr_write_routine_response};
use station::transfer::{
    skr_rewrite_request, skr_rewrite_response, skr_write_request, skr_write_response,
};

fn write_request(input: &[u8], room: &mut [u8]) -> Option<WrittenRecord> {
    if input.len() < 44 {
        return None;
    }
    let uncompressed = size_at(input, 4);
    let compressed = size_at(input, 20);
    Some(skr_write_request(
        input[2],
        &input[44..],
        input[3],
        uncompressed.high,
        uncompressed.low,
        compressed.high,
        compressed.low,
        room,
    ))
}

fn write_response(input: &[u8], room: &mut [u8]) -> Option<WrittenRecord> {
    if input.len() < 44 {
        return None;
    }
    let uncompressed = size_at(input, 4);
    let compressed = size_at(input, 20);
    Some(skr_write_response(
        input[2],
        &input[44..],
        input[3],
        uncompressed.high,
        uncompressed.low,
        compressed.high,
        compressed.low,
        number_at(input, 36, 8),
        room,
    ))
}

fn write_routine_request(input: &[u8], room: &mut [u8]) -> Option<WrittenRecord> {
    if input.len() < 6 {
        return None;
    }
    let suppress = input[2] != 0;
    let identifier = two_at(input, 4);
    let record = &input[6..];
    Some(skr_write_routine_request(suppress, input[3], identifier, record, room))
}

fn write_routine_response(input: &[u8], room: &mut [u8]) -> Option<WrittenRecord> {
    if input.len() < 6 {
        return None;
    }
    let identifier = two_at(input, 4);
    Some(skr_write_routine_response(input[3], identifier, &input[6..], room))
}

// The list of answers has no tail for a rewriting.
fn without_tail(r: RewrittenRecord) -> WrittenRecord {
    WrittenRecord {
        number: r.number,
        first: r.first,
        second: r.second,
        written: r.written,
    }
}

// What the call answered; or none was made, since the input has too few bytes for one, or the letter stands for none.
fn write(letter: u8, input: &[u8], room: &mut [u8]) -> Option<WrittenRecord> {
    match letter {
        b'E' => write_request(input, room),
        b'F' => write_response(input, room),
        b'G' => write_routine_request(input, room),
        b'H' => write_routine_response(input, room),
        b'I' if 2 <= input.len() => Some(without_tail(skr_rewrite_request(&input[2..], room))),
        b'J' if 2 <= input.len() => Some(without_tail(skr_rewrite_response(&input[2..], room))),
        _ => None,
    }
}

// The record, and the whole room after the call.
fn put_written(letter: u8, input: &[u8], room: &mut [u8], out: &mut [u8], at: usize) -> usize
    ensures { IsPrefixLen result out.new }
{
    let Some(r) = write(letter, input, room) else {
        return 0;
    };
    let end = put_numbers(&[r.number, r.first, r.second, r.written], out, at);
    put_hex(room, out, end)
}

pub(crate) fn put_in_room(letter: u8, input: &[u8], out: &mut [u8], at: usize) -> usize
    ensures { IsPrefixLen result out.new }
{
    let mut room = full_room();
    let n = usize::from(two_at(input, 0)).min(room.len());
    put_written(letter, input, &mut room[..n], out, at)
}
