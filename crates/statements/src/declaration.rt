// What is declared of the two stations of a run.
ghost use Rattle.std.specs.Prelude.{◌≡◌};
ghost use Rattle.statements.specs.Declarations.{subject};

use std::fmt;

/// One of the two stations of a run.
#[derive(Clone, Copy, Debug, PartialEq, Eq)]
pub enum Name {
    A,
    B,
}

// As written: the language knows of no memory, whose `Places` are of its own width.
/// How many records of each kind a station has room for.
#[derive(Clone, Copy, Debug, PartialEq, Eq)]
pub struct Places {
    pub policies: u64,
    pub associations: u64,
    pub heard: u64,
}

// Kinds, codes and levels are numbers as they are written: a wrong one is refused with the settings.
/// What is declared of a station.
#[derive(Clone, Copy, Debug, PartialEq, Eq)]
pub enum Declaration {
    Station {
        name: Name,
        own: u32,
        ne_id: u64,
        back: u64,
        ahead: u64,
        fallback: bool,
        places: Places,
    },
    Listed {
        name: Name,
        kind: u8,
        code: u8,
    },
    Profile {
        name: Name,
        ppi: u16,
        code: u8,
        level: u8,
    },
}

impl Declaration {
    /// The station that a declaration speaks of.
    pub fn name(self) -> Name
        ensures { result ≡ subject self }
    {
        match self {
            Declaration::Station { name, .. } => name,
            Declaration::Listed { name, .. } => name,
            Declaration::Profile { name, .. } => name,
        }
    }
}

impl fmt::Display for Name {
    fn fmt<W: fmt::Write>(&self, f: &mut fmt::Formatter<W>) -> fmt::Result {
        match *self {
            Name::A => write!(f, "A"),
            Name::B => write!(f, "B"),
        }
    }
}
