// Cutting an input into lines, an octet at a time.
#![tactic(auto)]

ghost use Rattle.std.specs.Prelude.{◌≡◌, ℕ, ◌+◌, min, List, [], ◌∷◌, IfOk, if◌then◌else◌};
ghost use Rattle.lines.specs.declared.LineFault.TheVariants.{NoMemory};
ghost use Rattle.lines.specs.Lines.{trimmed, lines, Put, LastLine};

use std::alloc::{AllocFailed, Global};
use std::fmt;

/// The most octets of a line, without its line end.
pub const LIMIT: usize = 8192;

/// Why a line cannot be gathered.
#[derive(Clone, Copy, Debug, PartialEq, Eq)]
pub enum LineFault {
    TooLong,
    NoMemory,
}

impl From<AllocFailed<u8>> for LineFault {
    ghost from_gives = { λ _ fault. fault ≡ NoMemory };

    fn from(_failed: AllocFailed<u8>) -> LineFault {
        LineFault::NoMemory
    }
}

/// The line that is being gathered, with its number, counted from 1.
#[derive(Drop)]
pub struct LineCutter {
    held: Vec<u8>,
    number: u64,
}

impl LineCutter {
    /// The first line, with nothing in it yet.
    pub fn new(heap: Global) -> LineCutter
        ensures held { result.held.items ≡ [] }
        ensures number { result.number ≡ 1 }
    {
        LineCutter {
            held: Vec::new(heap),
            number: 1,
        }
    }

    /// The number of the line.
    pub fn number(&self) -> u64
        ensures { result ≡ self.now.number }
    {
        self.number
    }

    // A flag, and `line` beside it: a line that `put` lent would keep the cutter lent with it until it was done.
    /// Adds an octet, and says whether the line is complete with it. A line holds one octet
    /// more than the limit at most, since that may be the CR of its line end. The line that is
    /// complete and the lines that are still to come are the lines of the whole input.
    pub fn put(&mut self, octet: u8) -> Result<bool, LineFault>
        ensures put { Put self.old.held.items octet self.new.held.items result }
        ensures cuts { IfOk result (λ complete. (rest : List ℕ) → lines self.old.held.items (octet ∷ rest) ≡ (if complete then trimmed self.old.held.items ∷ lines [] rest else lines self.new.held.items rest)) }
        ensures number { self.new.number ≡ self.old.number }
    {
        if octet == b'\n' {
            return if self.line().len() <= LIMIT {
                Ok(true)
            } else {
                Err(LineFault::TooLong)
            };
        }
        if self.held.len() > LIMIT {
            return Err(LineFault::TooLong);
        }
        self.held.push(octet)?;
        Ok(false)
    }

    /// The octets of a complete line; a CR before its LF belongs to the line end.
    pub fn line(&self) -> &[u8]
        ensures { result.now ≡ trimmed self.now.held.items }
    {
        match self.held.as_slice() {
            [line @ .., b'\r'] => line,
            line => line,
        }
    }

    /// The octets of the last line, which no LF ends; none, where nothing is left.
    pub fn last_line(&self) -> Result<Option<&[u8]>, LineFault>
        ensures { LastLine self.now.held.items result }
    {
        match self.held.as_slice() {
            [] => Ok(None),
            held if held.len() <= LIMIT => Ok(Some(held)),
            _ => Err(LineFault::TooLong),
        }
    }

    /// Goes on to the next line.
    pub fn clear(&mut self)
        ensures held { self.new.held.items ≡ [] }
        ensures number { self.new.number ≡ min (self.old.number + 1) 18446744073709551615 }
    {
        self.held.clear();
        self.number = self.number.saturating_add(1);
    }
}

impl fmt::Display for LineFault {
    fn fmt<W: fmt::Write>(&self, f: &mut fmt::Formatter<W>) -> fmt::Result {
        match *self {
            LineFault::TooLong => write!(
                f,
                "found a line of more than {LIMIT} octets, expected at most {LIMIT}"
            ),
            LineFault::NoMemory => write!(f, "no memory is left for the line"),
        }
    }
}
