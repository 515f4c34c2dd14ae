// What is said of a line that cannot be read.
#![tactic(auto)]

use std::fmt;
use words::cut::word_at;
use words::fault::{Expected, Fault};

/// A fault and the line that it is in.
#[derive(Drop)]
pub struct Complaint<'a> {
    pub line: &'a [u8],
    pub fault: Fault,
}

/// How many octets of a word are shown.
const SHOWN: usize = 40;

/// The front of a word: printable characters of ASCII as they are, other octets as numbers.
#[derive(Drop)]
struct Front<'a> {
    word: &'a [u8],
}

impl fmt::Display for Front<'_> {
    fn fmt<W: fmt::Write>(&self, f: &mut fmt::Formatter<W>) -> fmt::Result {
        for octet in self.word.iter().take(SHOWN) {
            match *octet {
                b'\\' | 0..0x20 | 0x7f.. => write!(f, "\\x{:02x}", *octet)?,
                shown => write!(f, "{}", shown as char)?,
            }
        }
        if self.word.len() > SHOWN {
            write!(f, "..")?;
        }
        Ok(())
    }
}

impl fmt::Display for Complaint<'_> {
    fn fmt<W: fmt::Write>(&self, f: &mut fmt::Formatter<W>) -> fmt::Result {
        let Fault { place, expected } = self.fault;
        if let Expected::Text = expected {
            return write!(f, "found octets that are not text, expected {expected}");
        }
        match word_at(self.line, place) {
            b"" => write!(f, "found the end of the line")?,
            word => write!(f, "found '{}'", Front { word })?,
        }
        write!(f, ", expected {expected}")
    }
}
