// Slips: what receive and plain leave to be closed.
ghost use Rattle.std.specs.Prelude.{◌≡◌};
ghost use Rattle.station.specs.Slips.{refusal_number, reported};

use rules::refusal::Refusal;

// A slip stands for an answer that has yet to be dealt with: its refusal's number, 0 for an outcome, and whether the dialogue waits.
// It can be neither copied nor dropped, so each is closed, and once. It holds plain numbers, 0 for no refusal: a slip is the same whatever was answered.
pub struct Slip {
    number: u8,
    waiting: bool,
}

// An answer, with its slip beside it.
pub struct Answer<V> {
    pub outcome: Result<V, Refusal>,
    pub slip: Slip,
}

// The answer with its slip.
pub(crate) fn with_slip<V>(outcome: Result<V, Refusal>, waiting: bool) -> Answer<V>
    ensures outcome { result.outcome ≡ outcome }
    ensures slip { result.slip ≡ record { number = refusal_number outcome; waiting = waiting } }
{
    let number = match &outcome {
        Ok(_) => 0,
        Err(refusal) => refusal.number(),
    };
    Answer {
        outcome,
        slip: Slip { number, waiting },
    }
}

// Closes a slip: the number to report to the peer, or 0 where nothing is reported.
pub fn close(slip: Slip) -> u8
    ensures { result ≡ reported slip.number slip.waiting }
{
    let Slip { number, waiting } = slip;
    match number {
        21 | 22 | 23 | 31 | 42 if waiting => number,
        _ => 0,
    }
}
