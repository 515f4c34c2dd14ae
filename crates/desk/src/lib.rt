// Keeping what the declarations say of the two stations.
#![tactic(auto)]

ghost use Rattle.std.specs.Prelude.{◌≡◌, None};
ghost use Rattle.desk.specs.declared.DeskFault.TheVariants.{NoMemory};
ghost use Rattle.desk.specs.Desk.{planned, Enters, EntersDesk, Taken};
ghost use Rattle.statements.specs.Declarations.{subject};

pub mod answers;

use rules::component::ComponentId;
use rules::profile::ProfileLine;
use rules::settings::Draft;
use statements::both::Both;
use statements::declaration::{Declaration, Name, Places};
use std::alloc::{AllocFailed, Global};
use std::fmt;

/// What is declared of a station.
#[derive(Drop)]
pub struct Declared {
    pub draft: Draft,
    pub places: Places,
}

/// Why a declaration cannot be entered.
#[derive(Clone, Copy, Debug, PartialEq, Eq)]
pub enum DeskFault {
    DeclaredTwice(Name),
    NotDeclared(Name),
    NoMemory,
}

impl<T: Drop> From<AllocFailed<T>> for DeskFault {
    ghost from_gives = { λ _ fault. fault ≡ NoMemory };

    fn from(_failed: AllocFailed<T>) -> DeskFault {
        DeskFault::NoMemory
    }
}

/// Enters a declaration into what is declared of its station.
fn enter(
    heap: Global,
    declared: &mut Option<Declared>,
    declaration: Declaration,
) -> Result<(), DeskFault>
    ensures { Enters declaration (planned declared.old) (planned declared.new) result }
{
    match declaration {
        Declaration::Station {
            name,
            own,
            ne_id,
            back,
            ahead,
            fallback,
            places,
        } => {
            if declared.is_some() {
                return Err(DeskFault::DeclaredTwice(name));
            }
            *declared = Some(Declared {
                draft: Draft {
                    own,
                    ne_id,
                    back,
                    ahead,
                    fallback,
                    listed: Vec::new(heap),
                    profile: Vec::new(heap),
                },
                places,
            });
            Ok(())
        }
        Declaration::Listed { name, kind, code } => match declared {
            Some(station) => station
                .draft
                .listed
                .push(ComponentId { kind, code })
                .map_err(DeskFault::from),
            None => Err(DeskFault::NotDeclared(name)),
        },
        Declaration::Profile {
            name,
            ppi,
            code,
            level,
        } => match declared {
            Some(station) => station
                .draft
                .profile
                .push(ProfileLine { ppi, code, level })
                .map_err(DeskFault::from),
            None => Err(DeskFault::NotDeclared(name)),
        },
    }
}

/// The declarations of both stations.
#[derive(Drop)]
pub struct Desk {
    pub declared: Both<Option<Declared>>,
}

impl Desk {
    /// Nothing is declared yet.
    pub fn new() -> Desk
        ensures a { result.declared.a ≡ None }
        ensures b { result.declared.b ≡ None }
    {
        Desk {
            declared: Both { a: None, b: None },
        }
    }

    /// Enters a declaration; one that is refused changes nothing.
    pub fn enter(&mut self, heap: Global, declaration: Declaration) -> Result<(), DeskFault>
        ensures { EntersDesk (subject declaration) declaration self.old self.new result }
    {
        enter(heap, self.declared.of_mut(declaration.name()), declaration)
    }

    /// Takes what is declared of a station away.
    pub fn take(&mut self, name: Name) -> Option<Declared>
        ensures { Taken name self.old self.new result }
    {
        self.declared.of_mut(name).take()
    }
}

impl fmt::Display for DeskFault {
    fn fmt<W: fmt::Write>(&self, f: &mut fmt::Formatter<W>) -> fmt::Result {
        match *self {
            DeskFault::DeclaredTwice(name) => write!(
                f,
                "found a second declaration of station {name}, expected one"
            ),
            DeskFault::NotDeclared(name) => write!(
                f,
                "found station {name}, expected a station that is declared above"
            ),
            DeskFault::NoMemory => write!(f, "no memory is left for the statement"),
        }
    }
}
