// The records that a station keeps. None holds an array, so that each can lie in a register.
ghost use Rattle.std.specs.Prelude.{◌≡◌, ◌-◌, nat_eq};
ghost use Rattle.station.specs.Records.{association_key, same_association, live, same_heard};
ghost use Rattle.std.proofs.Common.{rules};

use keys::Key;
use register::{Ending, Keyed};

// How a station deals with a network: without MAPsec, or with it.
#[derive(Clone, Copy, Debug, PartialEq, Eq)]
pub enum Stance {
    Plain,
    Mapsec,
}

// The policy for a network, which never ends.
#[derive(Clone, Copy, Debug, PartialEq, Eq)]
pub struct Policy {
    pub network: u32,
    pub stance: Stance,
}

impl Keyed for Policy {
    type Key = u32;

    ghost key = { λ p. p.network };

    ghost same = { nat_eq };

    ghost MOST = { 64 };

    const MOST: usize = 64;

    ghost reflexive = { Prim.search rules };

    ghost symmetric = { Prim.search rules };

    ghost transitive = { Prim.search rules };

    fn key_of(&self) -> u32 {
        self.network
    }

    fn has_key(&self, k: u32) -> bool {
        k == self.network
    }
}

// What a security association is held under.
#[derive(Clone, Copy, Debug, PartialEq, Eq)]
pub struct AssociationKey {
    pub destination: u32,
    pub spi: u32,
}

// A security association, its fields in the order in which they are counted from 1.
// MEA and MIA are numbers: which there are is for the banks to say.
#[derive(Clone, Copy)]
pub struct SecurityAssociation {
    pub sender: u32,
    pub destination: u32,
    pub spi: u32,
    pub mea: u8,
    pub cipher_key: Key,
    pub mia: u8,
    pub integrity_key: Key,
    pub ppi: u16,
    pub soft: u64,
    pub hard: u64,
}

impl SecurityAssociation {
    // It is live up to the hard expiry, which is not included.
    pub fn is_live(&self, reading: u64) -> bool
        ensures { result ≡ live reading self.now }
    {
        reading < self.hard
    }
}

impl Keyed for SecurityAssociation {
    type Key = AssociationKey;

    ghost key = { association_key };

    ghost same = { same_association };

    ghost MOST = { 256 };

    const MOST: usize = 256;

    ghost reflexive = { Prim.search rules };

    ghost symmetric = { Prim.search rules };

    ghost transitive = { Prim.search rules };

    fn key_of(&self) -> AssociationKey {
        AssociationKey {
            destination: self.destination,
            spi: self.spi,
        }
    }

    fn has_key(&self, k: AssociationKey) -> bool {
        k == self.key_of()
    }
}

// Its last tick is the one before the hard expiry.
impl Ending for SecurityAssociation {
    ghost last = { λ a. a.hard - 1 };

    fn last_tick(&self) -> u64 {
        self.hard.saturating_sub(1)
    }
}

// What a message is known by once it was heard.
#[derive(Clone, Copy, Debug, PartialEq, Eq)]
pub struct HeardKey {
    pub network: u32,
    pub spi: u32,
    pub tvp: u32,
    pub ne_id: u64,
    pub prop: u32,
}

// A message that was handed on, and the last tick at which it could still be fresh.
#[derive(Clone, Copy, Debug, PartialEq, Eq)]
pub struct HeardMessage {
    pub key: HeardKey,
    pub last: u64,
}

impl Keyed for HeardMessage {
    type Key = HeardKey;

    ghost key = { λ h. h.key };

    ghost same = { same_heard };

    ghost MOST = { 4096 };

    const MOST: usize = 4096;

    ghost reflexive = { Prim.search rules };

    ghost symmetric = { Prim.search rules };

    ghost transitive = { Prim.search rules };

    fn key_of(&self) -> HeardKey {
        self.key
    }

    fn has_key(&self, k: HeardKey) -> bool {
        k == self.key
    }
}

impl Ending for HeardMessage {
    ghost last = { λ h. h.last };

    fn last_tick(&self) -> u64 {
        self.last
    }
}
