// What belongs to the two stations.
ghost use Rattle.std.specs.Prelude.{◌≡◌};
ghost use Rattle.std.specs.Borrow.{sem};
ghost use Rattle.statements.specs.Both.{of, LendsOf};

use crate::declaration::Name;

/// What each of the two stations of a run has.
#[derive(Drop)]
pub struct Both<T> {
    pub a: T,
    pub b: T,
}

impl<T> Both<T> {
    /// What that station has.
    pub fn of(&self, name: Name) -> &T
        ensures { result.now ≡ of name self.now }
    {
        match name {
            Name::A => &self.a,
            Name::B => &self.b,
        }
    }

    /// The same, to be changed; what the other station has stays.
    pub fn of_mut(&mut self, name: Name) -> &mut T
        ensures* lends { sem 𝓛 (LendsOf T.row name self.entry result) }
        ensures value { result.now ≡ of name self.old }
    {
        match name {
            Name::A => &mut self.a,
            Name::B => &mut self.b,
        }
    }
}
