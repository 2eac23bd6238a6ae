// The text that the program `replay_log` prints of a log, and the room that it reads a log into.
// No `write!`, for the reason that stands in crate `ascii_text`.
#![tactic(auto)]

ghost use Rattle.std.specs.Prelude.{◌≡◌, ◌≤◌, length, replicate};
ghost use Rattle.io.specs.Counts.{IsPrefixLen};
ghost use Rattle.paper.specs.Answer.{over};
ghost use Rattle.paper.specs.ReplayProgram.{last_text, transfer_text, state_text, ended_text, replay_text};
ghost use Rattle.ascii_text.specs.Text.{Put};
ghost use Rattle.replay.specs.Replay.{last_of, transfer_of, state_of, ended_said};

use ascii_text::{put_decimal, put_field, put_refused};
use replay::{State, Stopped, Transfer, run};
use wire::write::{put_byte, put_bytes};

// Room for a log: one record more than it may have, so that a longer one is seen to have too many. All zeros. A length stands beside it, since no heap is used.
pub fn room() -> [u8; 262148]
    ensures value { 262148 ≡ length result }
    ensures value_2 { result ≡ replicate 262148 0 }
{
    [0; 262148]
}

// The last counter, or a dash where there is none.
fn put_last(last: Option<u8>, out: &mut [u8]) -> usize
    ensures { Put (last_text (last_of last)) result 20 out.old out.new }
{
    match last {
        None => {
            let _ = put_byte(b'-', out);
            1
        }
        Some(counter) => put_decimal(u64::from(counter), out),
    }
}

// `open last C` or `closed last -`.
fn put_transfer(transfer: Transfer, out: &mut [u8]) -> usize
    requires { 87 ≤ length out.old }
    ensures { Put (transfer_text (transfer_of transfer)) result 30 out.old out.new }
{
    match transfer {
        Transfer::Closed => {
            let _ = put_bytes(b"closed last -", out);
            13
        }
        Transfer::Open(last) => {
            let _ = put_bytes(b"open last ", out);
            10 + put_last(last, &mut out[10..])
        }
    }
}

// That, then ` repeats R total T` and the line feed.
fn put_state(state: State, out: &mut [u8]) -> usize
    requires { 87 ≤ length out.old }
    ensures { Put (state_text (state_of state)) result 87 out.old out.new }
{
    let a = put_transfer(state.transfer, out);
    let b = a + put_field(b" repeats ", state.repeats, &mut out[a..]);
    let c = b + put_field(b" total ", state.total, &mut out[b..]);
    let _ = put_byte(b'\n', &mut out[c..]);
    c + 1
}

// The state; of a refusal its line first, and then the state before it.
fn put_answer(answer: Result<State, Stopped>, out: &mut [u8]) -> usize
    requires { 158 ≤ length out.old }
    ensures { Put (ended_text (ended_said answer)) result 158 out.old out.new }
{
    match answer {
        Ok(state) => put_state(state, out),
        Err(Stopped { refusal, before }) => {
            let a = put_refused(refusal, out);
            a + put_state(before, &mut out[a..])
        }
    }
}

// All that the program prints of a log, from the start of `out`: a line with the state, or that of the refusal and a second one with the state before it.
// How many bytes it has.
pub fn replay_text(log: &[u8], out: &mut [u8; 4096]) -> usize
    ensures value { result ≡ length (replay_text log.now) }
    ensures out_after { out.new ≡ over (replay_text log.now) out.old }
    ensures prefix_len { IsPrefixLen result out.new }
{
    put_answer(run(log), out)
}
