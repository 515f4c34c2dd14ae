// What the trials start from.
pub use cases::association;
use cases::draft;
use delivery::Gateway;
use rules::refusal::Refusal;
use rules::settings::Settings;
use station::protect::Sending;
use station::receive::Handed;
use station::slip::{Answer, close};
use std::alloc::Global;
use std::test::Fail;

// The own network of the trials, and the other one.
pub const OWN: u32 = 1;

pub const OTHER: u32 = 2;

// Each trial makes its own places and registers: places have to outlive the registers in them, so no function can make both.
// A gateway of network 1 without fallback.
pub fn gateway(heap: Global) -> Result<Gateway, Fail> {
    gateway_of(heap, OWN, false)
}

// A gateway of any network, with the settings of the worked cases.
pub fn gateway_of(heap: Global, own: u32, fallback: bool) -> Result<Gateway, Fail> {
    Settings::new(draft(heap, own, fallback)?)
        .map(Gateway::new)
        .map_err(|_| Fail::new("the settings of the trials are right"))
}

// The number and the place of a refusal, zeros where there is none: the trials speak in numbers, as the rules and an operator do.
pub fn told(answer: Result<(), Refusal>) -> (u8, usize) {
    match answer {
        Ok(()) => (0, 0),
        Err(refusal) => (refusal.number(), refusal.place()),
    }
}

// The mode and the length of what was sent, or the number and the place of a refusal; (9, 0) for plain.
pub fn sent(answer: Result<Sending, Refusal>) -> (u8, usize) {
    match answer {
        Ok(Sending::Plain) => (9, 0),
        Ok(Sending::Sent { mode, length }) => (mode.number(), length),
        Err(refusal) => (refusal.number(), refusal.place()),
    }
}

// The mode and the length of what was handed on, or the number and the place of a refusal; and what closing the slip reports.
pub fn taken(answer: Answer<Handed>) -> (u8, usize, u8) {
    let Answer { outcome, slip } = answer;
    let report = close(slip);
    match outcome {
        Ok(handed) => (handed.mode.number(), handed.length, report),
        Err(refusal) => (refusal.number(), refusal.place(), report),
    }
}
