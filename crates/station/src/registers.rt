// The three registers of a station, in memory that its owner lends.
ghost use Rattle.std.specs.Prelude.{◌≡◌, length};

use crate::records::{AssociationKey, HeardMessage, Policy, SecurityAssociation};
use register::Register;

// Policies, associations and heard messages; no register holds a key twice.
#[derive(Drop)]
pub struct Registers<'a> {
    pub(crate) policies: Register<'a, Policy>,
    pub(crate) associations: Register<'a, SecurityAssociation>,
    pub(crate) heard: Register<'a, HeardMessage>,
}

impl<'a> Registers<'a> {
    ghost use Rattle.station.specs.States.{policy_under, association_under, NewRegisters};

    // Empty registers in the places lent: 64, 256 and 4,096 of them are used at most.
    pub fn new(
        policies: &'a mut [Option<Policy>],
        associations: &'a mut [Option<SecurityAssociation>],
        heard: &'a mut [Option<HeardMessage>],
    ) -> Registers<'a>
        ensures { NewRegisters (length policies.old) (length associations.old) (length heard.old) result }
    {
        Registers {
            policies: Register::new(policies),
            associations: Register::new(associations),
            heard: Register::new(heard),
        }
    }

    pub fn policy(&self, network: u32) -> Option<Policy>
        ensures { result ≡ policy_under network self.now.policies.places.now }
    {
        self.policies.find(network)
    }

    pub fn association(&self, key: AssociationKey) -> Option<SecurityAssociation>
        ensures { result ≡ association_under key self.now.associations.places.now }
    {
        self.associations.find(key)
    }
}
