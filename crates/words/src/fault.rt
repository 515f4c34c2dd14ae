// What cannot be read, and what should have stood there.
ghost use Rattle.std.specs.Prelude.{◌≡◌};
ghost use Rattle.words.specs.Reading.{spelled};

use std::fmt;

/// The words that name a field of a statement.
#[derive(Clone, Copy, Debug, PartialEq, Eq)]
pub enum Keyword {
    Own,
    Ne,
    Back,
    Ahead,
    Fallback,
}

impl Keyword {
    /// How a keyword is written.
    pub fn text(self) -> &'static str
        ensures { result.now ≡ spelled self }
    {
        match self {
            Keyword::Own => "own",
            Keyword::Ne => "ne",
            Keyword::Back => "back",
            Keyword::Ahead => "ahead",
            Keyword::Fallback => "fallback",
        }
    }
}

/// What a place of a line should hold.
#[derive(Clone, Copy, Debug, PartialEq, Eq)]
pub enum Expected {
    /// Octets that are UTF-8.
    Text,
    /// The word that a statement begins with.
    Statement,
    StationName,
    Keyword(Keyword),
    /// A number of at most `limit`.
    Number { limit: u64 },
    /// The word that a call begins with.
    Call,
    /// 32 hexadecimal digits.
    Key,
    /// Pairs of hexadecimal digits, `-` or `@N`.
    Octets,
    /// `@N` of an answer that gave octets.
    Answer,
    YesOrNo,
    PlacesOrEnd,
    End,
}

/// The word at a place of a line, counted from 0, is not what was expected there.
#[derive(Clone, Copy, Debug, PartialEq, Eq)]
pub struct Fault {
    pub place: usize,
    pub expected: Expected,
}

impl fmt::Display for Keyword {
    fn fmt<W: fmt::Write>(&self, f: &mut fmt::Formatter<W>) -> fmt::Result {
        write!(f, "{}", self.text())
    }
}

impl fmt::Display for Expected {
    fn fmt<W: fmt::Write>(&self, f: &mut fmt::Formatter<W>) -> fmt::Result {
        match *self {
            Expected::Text => write!(f, "text in UTF-8"),
            Expected::Statement => write!(f, "station, listed, profile, A or B"),
            Expected::StationName => write!(f, "A or B"),
            Expected::Keyword(keyword) => write!(f, "'{keyword}'"),
            Expected::Number { limit } => write!(f, "a number up to {limit}, decimal or 0x.."),
            Expected::Call => write!(f, "admit, install, revoke, protect, receive or plain"),
            Expected::Key => write!(f, "a key of 32 hexadecimal digits"),
            Expected::Octets => write!(f, "octets: pairs of hexadecimal digits, - or @N"),
            Expected::Answer => write!(f, "the number of an answer above that gave octets"),
            Expected::YesOrNo => write!(f, "yes or no"),
            Expected::PlacesOrEnd => write!(f, "'places' or nothing more"),
            Expected::End => write!(f, "nothing more"),
        }
    }
}
