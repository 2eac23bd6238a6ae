// Recorded transfers: a whole log, and one record after a state.
ghost use Rattle.std.specs.Prelude.{◌≡◌};
ghost use Rattle.paper.specs.Replay.{ran, stopped, replayed, stepped_once, log_record};
ghost use Rattle.wire.specs.Refusals.{row};
ghost use Rattle.replay.specs.Replay.{transfer_of, state_of};
ghost use Rattle.archive.specs.Replays.{replay_record, transfer_handed, state_handed};

use replay::{LogRecord, State, Stopped, Transfer, run, step};
use station::records::flat;

// The state of a recorded transfer, or beside a refusal the state before it. `open` and `has_last` are 0 or 1; without a last counter `last` is 0.
#[repr(C)]
#[derive(Clone, Copy, Default)]
pub struct ReplayRecord {
    pub number: u64,
    pub first: u64,
    pub second: u64,
    pub open: u64,
    pub has_last: u64,
    pub last: u64,
    pub repeats: u64,
    pub total: u64,
}

impl From<State> for ReplayRecord {
    ghost from_gives = { λ state r. r ≡ replay_record (ran (state_of state)) };

    fn from(state: State) -> ReplayRecord {
        let (open, last) = match state.transfer {
            Transfer::Closed => (0, None),
            Transfer::Open(last) => (1, last),
        };
        ReplayRecord {
            open,
            has_last: u64::from(last.is_some()),
            last: last.map_or(0, u64::from),
            repeats: state.repeats,
            total: state.total,
            ..ReplayRecord::default()
        }
    }
}

impl From<Stopped> for ReplayRecord {
    ghost from_gives = { λ x r. r ≡ replay_record (stopped (row x.refusal) (state_of x.before)) };

    fn from(x: Stopped) -> ReplayRecord {
        let e = x.refusal;
        ReplayRecord {
            number: e.number() as u64,
            first: e.first() as u64,
            second: e.second() as u64,
            ..x.before.into()
        }
    }
}

#[unsafe(no_mangle)]
pub extern "C" fn skr_replay_log(log: &[u8]) -> ReplayRecord
    ensures { result ≡ replay_record (replayed log.now) }
{
    flat(run(log))
}

// The transfer that is handed over: what is said of a last counter is looked at only where it belongs.
fn handed(open: bool, has_last: bool, last: u8) -> Transfer
    ensures { transfer_of result ≡ transfer_handed «open» has_last last }
{
    if open {
        Transfer::Open(has_last.then_some(last))
    } else {
        Transfer::Closed
    }
}

// One record after a state. A refusal carries the place that is handed over, and the state is then as it was.
#[unsafe(no_mangle)]
pub extern "C" fn skr_replay_step(
    open: bool,
    has_last: bool,
    last: u8,
    repeats: u64,
    total: u64,
    service: u8,
    kind_or_counter: u8,
    payload: u16,
    place: usize,
) -> ReplayRecord
    ensures { result ≡ replay_record (stepped_once place (state_handed «open» has_last last repeats total) (log_record service kind_or_counter payload)) }
{
    let state = State {
        transfer: handed(open, has_last, last),
        repeats,
        total,
    };
    let record = LogRecord {
        service,
        kind_or_counter,
        payload,
    };
    match step(state, record, place) {
        Ok(next) => next.into(),
        Err(refusal) => Stopped {
            refusal,
            before: state,
        }
        .into(),
    }
}
