// The memory that the registers of a station lie in, for an owner that has a heap.
#![tactic(auto)]

ghost use Rattle.std.specs.Prelude.{◌≡◌, length, IfOk, vec_len};
ghost use Rattle.station.specs.States.{NewRegisters};

use station::records::{HeardMessage, Policy, SecurityAssociation};
use station::registers::Registers;
use std::alloc::{AllocError, Global};

/// How many places each register of a station has; more than the bound of its kind are not used.
#[derive(Clone, Copy, Debug, PartialEq, Eq)]
pub struct Places {
    pub policies: usize,
    pub associations: usize,
    pub heard: usize,
}

/// Places for records of the three kinds.
#[derive(Drop)]
pub struct Memory {
    policies: Vec<Option<Policy>>,
    associations: Vec<Option<SecurityAssociation>>,
    heard: Vec<Option<HeardMessage>>,
}

/// The places of a memory, lent.
#[derive(Drop)]
pub struct Room<'a> {
    pub policies: &'a mut [Option<Policy>],
    pub associations: &'a mut [Option<SecurityAssociation>],
    pub heard: &'a mut [Option<HeardMessage>],
}

impl Memory {
    /// As many places as asked for, each free.
    pub fn new(heap: Global, places: Places) -> Result<Memory, AllocError>
        ensures { IfOk result (λ m. (vec_len m.policies ≡ places.policies) × (vec_len m.associations ≡ places.associations) × (vec_len m.heard ≡ places.heard)) }
    {
        Ok(Memory {
            policies: vec![in heap; None; places.policies]?,
            associations: vec![in heap; None; places.associations]?,
            heard: vec![in heap; None; places.heard]?,
        })
    }

    /// All of its places.
    pub fn room(&mut self) -> Room<'_>
        ensures { (length result.policies.now ≡ vec_len self.old.policies) × (length result.associations.now ≡ vec_len self.old.associations) × (length result.heard.now ≡ vec_len self.old.heard) }
    {
        Room {
            policies: self.policies.as_mut_slice(),
            associations: self.associations.as_mut_slice(),
            heard: self.heard.as_mut_slice(),
        }
    }

    /// Empty registers in these places.
    pub fn registers(&mut self) -> Registers<'_>
        ensures { NewRegisters (vec_len self.old.policies) (vec_len self.old.associations) (vec_len self.old.heard) result }
    {
        Registers::new(&mut self.policies, &mut self.associations, &mut self.heard)
    }
}

#[cfg(test)]
mod tests;
