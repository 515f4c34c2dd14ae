// The stations of a run. Each is made at its first call, with the places that it was declared with.
use crate::answers::{Outcome, Reply};
use calls::{Algorithms, Call, Lifetime, Parties};
use delivery::Gateway;
use desk::Declared;
use memory::{Memory, Room};
use rules::component::ComponentId;
use rules::refusal::Refusal;
use rules::settings::Settings;
use statements::both::Both;
use statements::declaration::Places;
use station::records::SecurityAssociation;
use station::registers::Registers;
use std::alloc::{AllocError, Global};
use std::mem;

/// As many places as a station may use.
const MOST: memory::Places = memory::Places {
    policies: 64,
    associations: 256,
    heard: 4096,
};

// The registers stand beside the gateway: no value that holds a `&mut` may be dropped where it is
// there in one case alone, as in an `Option`.
/// A station of the run: until it is made, its registers have no places.
#[derive(Drop)]
pub struct Site<'a> {
    room: Room<'a>,
    registers: Registers<'a>,
    gateway: Option<Gateway>,
}

/// Empty places for each station.
pub fn memory_of_both(heap: Global) -> Result<Both<Memory>, AllocError> {
    Ok(Both {
        a: Memory::new(heap, MOST)?,
        b: Memory::new(heap, MOST)?,
    })
}

/// What each station may use.
pub fn rooms(memory: &mut Both<Memory>) -> Both<Room<'_>> {
    Both {
        a: memory.a.room(),
        b: memory.b.room(),
    }
}

/// The first places, as many as are declared.
fn first<R>(places: &mut [Option<R>], count: u64) -> &mut [Option<R>] {
    let count = places.len().min(count as usize);
    &mut places[..count]
}

/// Takes all places of a room, and gives empty registers in the first ones, as many as are declared.
fn furnish<'a>(room: &mut Room<'a>, places: Places) -> Registers<'a> {
    let policies = mem::replace(&mut room.policies, &mut []);
    let associations = mem::replace(&mut room.associations, &mut []);
    let heard = mem::replace(&mut room.heard, &mut []);
    Registers::new(
        first(policies, places.policies),
        first(associations, places.associations),
        first(heard, places.heard),
    )
}

impl<'a> Site<'a> {
    /// A station with its room, which no call has made.
    pub fn new(room: Room<'a>) -> Site<'a> {
        Site {
            room,
            registers: Registers::new(&mut [], &mut [], &mut []),
            gateway: None,
        }
    }

    /// Whether a call has made it.
    pub fn is_made(&self) -> bool {
        self.gateway.is_some()
    }

    /// Makes the station as it is declared.
    pub fn make(&mut self, declared: Declared) -> Result<(), Refusal> {
        let Declared { draft, places } = declared;
        let settings = Settings::new(draft)?;
        let _ = mem::replace(&mut self.registers, furnish(&mut self.room, places));
        self.gateway = Some(Gateway::new(settings));
        Ok(())
    }

    /// Makes a call at the station; none, where it is not made.
    pub fn call(&mut self, call: Call, octets: &[u8], output: &mut [u8]) -> Option<Reply> {
        let gateway = self.gateway.as_mut()?;
        Some(perform(gateway, &mut self.registers, call, octets, output))
    }
}

// By name and not by `From`: neither an association nor what the language has of it is this crate's.
/// The association that is written.
fn association(
    parties: Parties,
    algorithms: Algorithms,
    lifetime: Lifetime,
) -> SecurityAssociation {
    SecurityAssociation {
        sender: parties.sender,
        destination: parties.destination,
        spi: parties.spi,
        mea: algorithms.mea,
        cipher_key: algorithms.mek,
        mia: algorithms.mia,
        integrity_key: algorithms.mik,
        ppi: lifetime.ppi,
        soft: lifetime.soft,
        hard: lifetime.hard,
    }
}

/// Makes a call with its octets and its output.
fn perform(
    gateway: &mut Gateway,
    registers: &mut Registers<'_>,
    call: Call,
    octets: &[u8],
    output: &mut [u8],
) -> Reply {
    match call {
        Call::Admit { network, stance } => {
            Reply::from(gateway.admit(registers, network, stance))
        }
        Call::Install {
            reading,
            parties,
            algorithms,
            lifetime,
        } => {
            let association = association(parties, algorithms, lifetime);
            Reply::from(gateway.install(registers, reading, association))
        }
        Call::Revoke { destination, spi } => {
            Reply::from(gateway.revoke(registers, destination, spi))
        }
        Call::Protect {
            reading,
            network,
            kind,
            code,
            room: _,
        } => {
            let component = ComponentId { kind, code };
            let sending = gateway.protect(registers, reading, network, component, octets, output);
            Reply::from(sending)
        }
        Call::Receive {
            reading,
            network,
            waiting,
            room: _,
        } => Reply::from(gateway.receive(registers, reading, network, waiting, octets, output)),
        Call::Plain {
            reading,
            kind,
            code,
            waiting,
        } => Reply::from(gateway.plain(reading, ComponentId { kind, code }, waiting, octets)),
    }
}
