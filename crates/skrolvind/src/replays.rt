// Recorded transfers: a whole log, and one record after a state.
ghost use Rattle.std.specs.Prelude.{◌≡◌};
ghost use Rattle.paper.specs.Replay.{replayed, stepped_once, log_record};
ghost use Rattle.archive.specs.Replays.{replay_record};
ghost use Rattle.archive.specs.Replays.{state_handed};

use archive::replays::ReplayRecord;

#[unsafe(no_mangle)]
pub extern "C" fn skr_replay_log(log: &[u8]) -> ReplayRecord
    ensures { result ≡ replay_record (replayed log.now) }
{
    archive::replays::skr_replay_log(log)
}

// One record after a state. A refusal carries the place that is handed over, and the state is then as it was.
#[unsafe(no_mangle)]
pub extern "C" fn skr_replay_step(
    open: bool,
    has_last: bool,
    last: u8,
    repeats: u64,
    total: u64,
    service: u8,
    kind_or_counter: u8,
    payload: u16,
    place: usize,
) -> ReplayRecord
    ensures { result ≡ replay_record (stepped_once place (state_handed «open» has_last last repeats total) (log_record service kind_or_counter payload)) }
{
    archive::replays::skr_replay_step(
        open,
        has_last,
        last,
        repeats,
        total,
        service,
        kind_or_counter,
        payload,
        place,
    )
}
