// Reading a whole message: the service byte says its sort, the sort's own reader has the rest, and every place is counted in the whole message.
ghost use Rattle.std.specs.Prelude.{◌≡◌, ◌≤◌, length};
ghost use Rattle.paper.specs.WholeMessage.{file_request, routine_request, file_response, routine_response, negative_answer};
ghost use Rattle.message.specs.Service.{sort_of};
ghost use Rattle.message.specs.Reading.{place_on, block_on, SortRight, MessageRight};

use crate::negative::{NegativeAnswer, is_listed};
use crate::service::{Service, Sort};
use request_file_transfer::read::{RequestFileTransferRequest, read_request};
use request_file_transfer_response::read::{RequestFileTransferResponse, read_response};
use routine_control::request::{RoutineControlRequest, read_routine_request};
use routine_control::response::{RoutineControlResponse, read_routine_response};
use wire::number::byte_at;
use wire::place::Place;
use wire::refusal::Refusal;

// What was read: the record of its sort and, of file transfer, where the tail begins. Of the other sorts the tail is always empty.
#[derive(Clone, Copy, Debug, PartialEq, Eq)]
pub enum Message {
    FileRequest(RequestFileTransferRequest, usize),
    RoutineRequest(RoutineControlRequest),
    FileResponse(RequestFileTransferResponse, usize),
    RoutineResponse(RoutineControlResponse),
    Negative(NegativeAnswer),
}

// A place behind the service byte, counted in the whole message.
fn place_on(place: Place) -> Place
    requires { place.start ≤ 3 }
    ensures { result ≡ place_on place }
{
    Place {
        start: place.start + 1,
        len: place.len,
    }
}

// The same of a block length; where the kind has none, its place stays the empty one at 0.
fn block_on(place: Place) -> Place
    requires { place.start ≤ 3 }
    ensures { result ≡ block_on place }
{
    if place.start == 0 {
        place
    } else {
        place_on(place)
    }
}

fn file_request(s: &[u8]) -> Result<Message, Refusal>
    requires { 1 ≤ length s.now }
    ensures { SortRight file_request s.now result }
{
    let (q, tail) = read_request(&s[1..])?;
    let whole = RequestFileTransferRequest {
        file_path_and_name: place_on(q.file_path_and_name),
        ..q
    };
    Ok(Message::FileRequest(whole, tail + 1))
}

fn routine_request(s: &[u8]) -> Result<Message, Refusal>
    requires { 1 ≤ length s.now }
    ensures { SortRight routine_request s.now result }
{
    let q = read_routine_request(&s[1..])?;
    Ok(Message::RoutineRequest(RoutineControlRequest {
        option_record: place_on(q.option_record),
        ..q
    }))
}

fn file_response(s: &[u8]) -> Result<Message, Refusal>
    requires { 1 ≤ length s.now }
    ensures { SortRight file_response s.now result }
{
    let (q, tail) = read_response(&s[1..])?;
    let whole = RequestFileTransferResponse {
        max_number_of_block_length: block_on(q.max_number_of_block_length),
        ..q
    };
    Ok(Message::FileResponse(whole, tail + 1))
}

fn routine_response(s: &[u8]) -> Result<Message, Refusal>
    requires { 1 ≤ length s.now }
    ensures { SortRight routine_response s.now result }
{
    let q = read_routine_response(&s[1..])?;
    Ok(Message::RoutineResponse(RoutineControlResponse {
        status_record: place_on(q.status_record),
        ..q
    }))
}

// Exactly three bytes, the service byte among them: 1 when short, 9 when longer, then 11 for a service that we don't have.
fn negative(s: &[u8]) -> Result<Message, Refusal>
    requires { 1 ≤ length s.now }
    ensures { SortRight negative_answer s.now result }
{
    let len = s.len();
    if len < 3 {
        return Err(Refusal::TooShort {
            needed: 3,
            available: len,
        });
    }
    if 3 < len {
        return Err(Refusal::LeftOver(len - 3));
    }
    let service = Service::try_from(s[1])?;
    let code = s[2];
    let listed = is_listed(service, code);
    Ok(Message::Negative(NegativeAnswer {
        service,
        code,
        listed,
    }))
}

fn after_service(sort: Sort, s: &[u8]) -> Result<Message, Refusal>
    requires { 1 ≤ length s.now }
    ensures { SortRight (sort_of sort) s.now result }
{
    match sort {
        Sort::FileRequest => file_request(s),
        Sort::RoutineRequest => routine_request(s),
        Sort::FileResponse => file_response(s),
        Sort::RoutineResponse => routine_response(s),
        Sort::NegativeAnswer => negative(s),
    }
}

// 1 for an empty message, 15 for a service byte that we don't have, then what the sort refuses.
pub fn read_message(s: &[u8]) -> Result<Message, Refusal>
    ensures { MessageRight s.now result }
{
    let (service, _) = byte_at(s, 0)?;
    after_service(Sort::try_from(service)?, s)
}
