// What a MAP component is called.
ghost use Rattle.std.specs.Prelude.{◌≡◌};
ghost use Rattle.std.specs.Result.{result_ok};
ghost use Rattle.rules.specs.Components.{kind_of};

use std::error::Error;
use std::fmt;

// The kinds of component that are protected, by their octet on the wire.
#[derive(Clone, Copy, Debug, PartialEq, Eq)]
pub enum ComponentKind {
    Invoke = 1,
    ReturnResult = 2,
    ReturnError = 3,
}

// An octet that stands for no kind.
#[derive(Clone, Copy, Debug, PartialEq, Eq)]
pub struct UnknownKind(pub u8);

impl TryFrom<u8> for ComponentKind {
    type Error = UnknownKind;

    ghost try_from_gives = { λ octet r. result_ok r ≡ kind_of octet };

    fn try_from(octet: u8) -> Result<ComponentKind, UnknownKind> {
        match octet {
            1 => Ok(ComponentKind::Invoke),
            2 => Ok(ComponentKind::ReturnResult),
            3 => Ok(ComponentKind::ReturnError),
            _ => Err(UnknownKind(octet)),
        }
    }
}

impl fmt::Display for UnknownKind {
    fn fmt<W: fmt::Write>(&self, f: &mut fmt::Formatter<W>) -> fmt::Result {
        write!(f, "{} stands for no kind of component", self.0)
    }
}

impl Error for UnknownKind {}

// The original component identifier: a kind octet, and the operation code (for an error the error code).
// It is kept as it came, so an identifier may be of no known kind.
#[derive(Clone, Copy, Debug, PartialEq, Eq)]
pub struct ComponentId {
    pub kind: u8,
    pub code: u8,
}

impl ComponentId {
    // The kind, if the octet stands for one.
    pub fn known_kind(self) -> Option<ComponentKind>
        ensures { result ≡ kind_of self.kind }
    {
        ComponentKind::try_from(self.kind).ok()
    }
}
