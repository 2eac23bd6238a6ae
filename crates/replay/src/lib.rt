// A recorded transfer, run through the rules of document 02: one record at a time, or a whole log.
#![tactic(auto)]

ghost use Rattle.std.specs.Prelude.{◌≡◌, ℕ, ◌+◌, ◌*◌, ◌^◌, ◌<◌, ◌≤◌, length};
ghost use Rattle.paper.specs.Replay.{start, opens, next_counter, is_repeat, opening, block, closing, block_in, stepped, stepped_once, run_from, replayed, within64};
ghost use Rattle.replay.specs.Replay.{last_of, state_of, meant, step_said, ended_said, with_more, served};
ghost use Rattle.replay.specs.Run.{records, IsEnd, HoldsMore, Passes};

use wire::refusal::Refusal;

// A transfer that is open has the counter of its last accepted block, or none before its first.
// Two words of its own and no `Option`: in an `Option<Option<u8>>` nothing tells which `None` is which.
#[derive(Clone, Copy, Debug, PartialEq, Eq)]
pub enum Transfer {
    Closed,
    Open(Option<u8>),
}

// How many repeats were counted, and how many bytes the new blocks have together, both over the whole log.
#[derive(Clone, Copy, Debug, PartialEq, Eq)]
pub struct State {
    pub transfer: Transfer,
    pub repeats: u64,
    pub total: u64,
}

// A record of 4 bytes: the payload length stands in the last two. The service stays a byte, since a log may have any.
#[derive(Clone, Copy, Debug, PartialEq, Eq)]
pub struct LogRecord {
    pub service: u8,
    pub kind_or_counter: u8,
    pub payload: u16,
}

// Why a run ended, and the state before the record that was refused.
#[derive(Clone, Copy, Debug, PartialEq, Eq)]
pub struct Stopped {
    pub refusal: Refusal,
    pub before: State,
}

impl From<[u8; 4]> for LogRecord {
    ghost use Rattle.replay.specs.Replay.{IsRecord};

    ghost from_gives = { IsRecord };

    fn from([service, kind_or_counter, high, low]: [u8; 4]) -> LogRecord {
        LogRecord {
            service,
            kind_or_counter,
            payload: u16::from_be_bytes([high, low]),
        }
    }
}

// Whether this kind opens a transfer.
// The kind stays a byte, as the service does: a log may have any, and this crate does not stand on `file_operation`.
fn may_open(kind: u8) -> bool
    ensures { result ≡ opens kind }
{
    matches!(kind, 1 | 3 | 6)
}

// The counter of the next new block: 1 for the first, then one more each, passing from 255 to 0.
fn next_counter(last: Option<u8>) -> u8
    ensures { result ≡ next_counter (last_of last) }
{
    last.map_or(1, |c| c.wrapping_add(1))
}

// Whether a block with this counter repeats the last accepted one.
fn is_repeat(last: Option<u8>, counter: u8) -> bool
    ensures { result ≡ is_repeat (last_of last) counter }
{
    last == Some(counter)
}

impl State {
    // The state before the first record: closed, with no repeats and no bytes.
    pub fn start() -> State
        ensures { state_of result ≡ start }
    {
        State {
            transfer: Transfer::Closed,
            repeats: 0,
            total: 0,
        }
    }

    // This transfer, with so many repeats and bytes more than the state has. Where 64 bits do not hold them, 12.
    fn with_more(self, transfer: Transfer, repeats: u64, bytes: u64) -> Result<State, Refusal>
        ensures { step_said result ≡ with_more self transfer repeats bytes }
    {
        Ok(State {
            transfer,
            repeats: self.repeats.checked_add(repeats).ok_or(Refusal::TooMany)?,
            total: self.total.checked_add(bytes).ok_or(Refusal::TooMany)?,
        })
    }

    // 0x38: opens a transfer where none is open and the kind may.
    fn open(self, record: LogRecord, place: usize) -> Result<State, Refusal>
        ensures { step_said result ≡ served opening self «record» place }
    {
        match self.transfer {
            Transfer::Closed if may_open(record.kind_or_counter) => {
                self.with_more(Transfer::Open(None), 0, 0)
            }
            Transfer::Closed | Transfer::Open(_) => Err(Refusal::NotAllowed { place }),
        }
    }

    // A block in an open transfer: a repeat is counted and adds nothing, a new one adds its payload, any other is 14.
    fn block_after(
        self,
        last: Option<u8>,
        record: LogRecord,
        place: usize,
    ) -> Result<State, Refusal>
        ensures { step_said result ≡ within64 (block_in (last_of last) place (meant «record») (state_of self)) }
    {
        let counter = record.kind_or_counter;
        let bytes = u64::from(record.payload);
        if is_repeat(last, counter) {
            self.with_more(Transfer::Open(last), 1, 0)
        } else if counter == next_counter(last) {
            self.with_more(Transfer::Open(Some(counter)), 0, bytes)
        } else {
            Err(Refusal::WrongCounter { place })
        }
    }

    // 0x36: a block, where a transfer is open.
    fn take_block(self, record: LogRecord, place: usize) -> Result<State, Refusal>
        ensures { step_said result ≡ served block self «record» place }
    {
        let Transfer::Open(last) = self.transfer else {
            return Err(Refusal::NotAllowed { place });
        };
        self.block_after(last, record, place)
    }

    // 0x37: closes the transfer that is open.
    fn close(self, record: LogRecord, place: usize) -> Result<State, Refusal>
        ensures { step_said result ≡ served closing self «record» place }
    {
        match self.transfer {
            Transfer::Closed => Err(Refusal::NotAllowed { place }),
            Transfer::Open(_) => self.with_more(Transfer::Closed, 0, 0),
        }
    }
}

// One record after the state: the next state, or a refusal with the place that is handed over. 15 for an unknown service, then 13 for a step that the state or
// the kind does not allow, then 14 for a wrong counter; and 12 where repeats or total would pass 64 bits, which no log of 65,536 records reaches.
#[tactic(auto, unfolding(paper::specs::Replay::stepped))]
pub fn step(state: State, record: LogRecord, place: usize) -> Result<State, Refusal>
    ensures { step_said result ≡ within64 (stepped place (state_of state) (meant «record»)) }
{
    match record.service {
        0x38 => state.open(record, place),
        0x36 => state.take_block(record, place),
        0x37 => state.close(record, place),
        _ => Err(Refusal::UnknownService { place }),
    }
}

// The same as a run of one record answers it.
#[tactic(auto, unfolding(paper::specs::Replay::stepped_once))]
fn step_once(state: State, record: LogRecord, place: usize) -> Result<State, Stopped>
    ensures { ended_said result ≡ stepped_once place (state_of state) (meant «record») }
{
    let before = state;
    step(state, record, place).map_err(|refusal| Stopped { refusal, before })
}

// The blocks that follow the last accepted one, in a loop of their own: nearly all of a log is blocks, and here a block takes three comparisons. It ends before the
// first record that is none, or whose counter is neither that of the last nor the next, and leaves it to `step`.
fn blocks_from(state: State, log: &[[u8; 4]]) -> (State, &[[u8; 4]])
    requires { HoldsMore state (length log.now) }
    ensures end { IsEnd result.1.now log.now }
    ensures led { (k : ℕ) → (at : ℕ) × Passes k state log.now at result.0 result.1.now }
{
    let Transfer::Open(Some(first)) = state.transfer else {
        return (state, log);
    };
    let mut last = first;
    let mut repeats = state.repeats;
    let mut total = state.total;
    let mut rest = log;
    while let Some((bytes, after)) = rest.split_first() {
        let record = LogRecord::from(*bytes);
        let counter = record.kind_or_counter;
        if record.service != 0x36 {
            break;
        }
        if counter == last {
            repeats += 1;
        } else if counter == next_counter(Some(last)) {
            total += u64::from(record.payload);
            last = counter;
        } else {
            break;
        }
        rest = after;
    }
    let transfer = Transfer::Open(Some(last));
    (
        State {
            transfer,
            repeats,
            total,
        },
        rest,
    )
}

// The records of the log, from the first state on: the rules for one record, and then the blocks that follow it.
fn run_records(log: &[[u8; 4]]) -> Result<State, Stopped>
    requires { length log.now ≤ 65536 }
    ensures { ended_said result ≡ run_from 0 (records log.now) start }
{
    let mut state = State::start();
    let mut rest = log;
    while let Some((bytes, after)) = rest.split_first() {
        let place = log.len() - rest.len();
        let next = step_once(state, LogRecord::from(*bytes), place)?;
        (state, rest) = blocks_from(next, after);
    }
    Ok(state)
}

// A whole log of at most 65,536 records (12), none of them cut (10), from the first state on; the first bad record ends it. An empty log is good, and so is one that
// ends open.
pub fn run(log: &[u8]) -> Result<State, Stopped>
    ensures { ended_said result ≡ replayed log.now }
{
    let before = State::start();
    let (whole, cut) = log.as_chunks::<4>();
    if 65536 < whole.len() {
        let refusal = Refusal::TooMany;
        return Err(Stopped { refusal, before });
    }
    if !cut.is_empty() {
        let refusal = Refusal::Cut;
        return Err(Stopped { refusal, before });
    }
    run_records(whole)
}
