// What a call is answered by, and how that is printed.
use crate::hex::Hex;
use rules::refusal::Refusal;
use station::protect::Sending;
use station::receive::Handed;
use station::slip::{Answer, close};
use std::fmt;

/// What became of a call that was not refused.
#[derive(Clone, Copy)]
pub enum Outcome {
    Done,
    Sending(Sending),
    Handed(Handed),
}

/// What a call is answered by; where it left a slip, with what close reported.
#[derive(Clone, Copy)]
pub struct Reply {
    pub outcome: Result<Outcome, Refusal>,
    pub closed: Option<u8>,
}

/// A call that only does something.
impl From<Result<(), Refusal>> for Reply {
    fn from(outcome: Result<(), Refusal>) -> Reply {
        Reply {
            outcome: outcome.map(|()| Outcome::Done),
            closed: None,
        }
    }
}

/// A component that was to be sent.
impl From<Result<Sending, Refusal>> for Reply {
    fn from(outcome: Result<Sending, Refusal>) -> Reply {
        Reply {
            outcome: outcome.map(Outcome::Sending),
            closed: None,
        }
    }
}

/// A call with a slip, which is closed.
impl From<Answer<Handed>> for Reply {
    fn from(answer: Answer<Handed>) -> Reply {
        let Answer { outcome, slip } = answer;
        Reply {
            outcome: outcome.map(Outcome::Handed),
            closed: Some(close(slip)),
        }
    }
}

impl Reply {
    /// How many octets it gives; none, where it is a reply without octets.
    pub fn length(&self) -> Option<usize> {
        match self.outcome {
            Ok(Outcome::Sending(Sending::Sent { length, .. })) => Some(length),
            Ok(Outcome::Handed(handed)) => Some(handed.length),
            _ => None,
        }
    }
}

/// A refusal by its numbers, as it is printed.
#[derive(Drop)]
pub struct Refused {
    pub refusal: Refusal,
}

impl fmt::Display for Refused {
    fn fmt<W: fmt::Write>(&self, f: &mut fmt::Formatter<W>) -> fmt::Result {
        let Refused { refusal } = self;
        let (number, layer, place) = (refusal.number(), refusal.layer(), refusal.place());
        write!(f, "refused {number} layer {layer} place {place}")
    }
}

/// A reply and the octets that it gives, as they are printed.
#[derive(Drop)]
pub struct Shown<'a> {
    pub reply: Reply,
    pub octets: &'a [u8],
}

/// Shows what became of a call that was not refused.
fn show<W: fmt::Write>(outcome: Outcome, hex: Hex<'_>, f: &mut fmt::Formatter<W>) -> fmt::Result {
    match outcome {
        Outcome::Done => write!(f, "ok"),
        Outcome::Sending(Sending::Plain) => write!(f, "plain"),
        Outcome::Sending(Sending::Sent { mode, length }) => {
            let mode = mode.number();
            write!(f, "sent mode {mode} octets {length} {hex}")
        }
        Outcome::Handed(
            Handed {
                component,
                mode,
                length,
            },
        ) => {
            let (kind, code, mode) = (component.kind, component.code, mode.number());
            write!(
                f,
                "handed kind {kind} code {code} mode {mode} octets {length} {hex}"
            )
        }
    }
}

impl fmt::Display for Shown<'_> {
    fn fmt<W: fmt::Write>(&self, f: &mut fmt::Formatter<W>) -> fmt::Result {
        let hex = Hex {
            octets: self.octets,
        };
        match self.reply.outcome {
            Ok(outcome) => show(outcome, hex, f)?,
            Err(refusal) => write!(f, "{}", Refused { refusal })?,
        }
        if let Some(number) = self.reply.closed {
            write!(f, " close {number}")?;
        }
        Ok(())
    }
}
