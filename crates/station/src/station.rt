// A station, and the calls that keep its registers.
ghost use Rattle.std.specs.Prelude.{◌≡◌};
ghost use Rattle.rules.specs.Checks.{decided};
ghost use Rattle.station.specs.Admit.{Admitted};
ghost use Rattle.station.specs.Clock.{clock_checks};
ghost use Rattle.station.specs.Install.{field_checks, place_checks, Installed};
ghost use Rattle.station.specs.Revoke.{Revoked};
ghost use Rattle.station.specs.States.{contents_of};

use crate::records::{AssociationKey, Policy, SecurityAssociation, Stance};
use crate::registers::Registers;
use banks::cipher::CipherBank;
use banks::tag::TagBank;
use register::{Ending, Keyed};
use rules::bounds::{LONGEST_LIFE, NETWORKS, READINGS};
use rules::refusal::{AssociationField, PolicyField, Refusal};
use rules::settings::Settings;

// One network element: its settings, the reading of its last accepted call that had one,
// and how many components it protected at which tick. Its registers are lent to each call.
#[derive(Drop)]
pub struct Station {
    pub(crate) settings: Settings,
    pub(crate) latest: u64,
    pub(crate) tick: u64,
    pub(crate) sent: u32,
}

impl Station {
    pub fn new(settings: Settings) -> Station
        ensures { result ≡ record { settings = settings; latest = 0; tick = 0; sent = 0 } }
    {
        Station {
            settings,
            latest: 0,
            tick: 0,
            sent: 0,
        }
    }

    // Sets the policy for a network: stance 0 removes it, 1 is plain, 2 is MAPsec.
    // The stance is a number, as the operator gives it: a wrong one is refused by 33.
    pub fn admit(
        &self,
        registers: &mut Registers<'_>,
        network: u32,
        stance: u8,
    ) -> Result<(), Refusal>
        ensures { Admitted network stance (contents_of registers.old) (contents_of registers.new) result }
    {
        if network >= NETWORKS {
            return Err(Refusal::WrongPolicy {
                field: PolicyField::Network,
            });
        }
        let stance = match stance {
            0 => {
                registers.policies.remove(network);
                return Ok(());
            }
            1 => Stance::Plain,
            2 => Stance::Mapsec,
            _ => return Err(Refusal::WrongPolicy {
                field: PolicyField::Stance,
            }),
        };
        let capacity = registers.policies.capacity();
        registers
            .policies
            .put(Policy { network, stance })
            .map_err(|_| Refusal::RegisterFull { capacity })
    }

    // Drops the association under a destination and an SPI, live or not.
    pub fn revoke(
        &self,
        registers: &mut Registers<'_>,
        destination: u32,
        spi: u32,
    ) -> Result<(), Refusal>
        ensures { Revoked destination spi (contents_of registers.old) (contents_of registers.new) result }
    {
        let key = AssociationKey { destination, spi };
        registers
            .associations
            .remove(key)
            .ok_or(Refusal::KeyNotHeld)?;
        Ok(())
    }

    // The reading is in range, and not before the latest.
    pub(crate) fn clock(&self, reading: u64) -> Result<(), Refusal>
        ensures { result ≡ decided (clock_checks self.now.latest reading) tt }
    {
        if (reading >= READINGS) | (reading < self.latest) {
            return Err(Refusal::WrongReading);
        }
        Ok(())
    }

    // The fields of an association, in their order.
    fn fields<C: CipherBank, T: TagBank>(
        &self,
        ciphers: &C,
        tags: &T,
        reading: u64,
        a: &SecurityAssociation,
    ) -> Result<(), Refusal>
        ensures { result ≡ decided (field_checks self.now.settings.own (C.CipherBank.means ciphers.now) (T.TagBank.means tags.now) reading a.now) tt }
    {
        let own = self.settings.own();
        let wrong = |field| Err(Refusal::WrongAssociation { field });
        if (a.sender >= NETWORKS) | ((a.sender != own) & (a.destination != own)) {
            return wrong(AssociationField::Sender);
        }
        if a.destination >= NETWORKS {
            return wrong(AssociationField::Destination);
        }
        if !ciphers.knows(a.mea) {
            return wrong(AssociationField::Mea);
        }
        if !tags.knows(a.mia) {
            return wrong(AssociationField::Mia);
        }
        if a.soft > a.hard {
            return wrong(AssociationField::SoftExpiry);
        }
        if (a.hard <= reading) || (a.hard - reading > LONGEST_LIFE) {
            return wrong(AssociationField::HardExpiry);
        }
        Ok(())
    }

    // Adds a security association.
    // The banks are lent apart: it only asks what they know, and who has them by `&` could not lend both together.
    pub fn install<C: CipherBank, T: TagBank>(
        &mut self,
        registers: &mut Registers<'_>,
        ciphers: &C,
        tags: &T,
        reading: u64,
        association: SecurityAssociation,
    ) -> Result<(), Refusal>
        ensures { Installed (C.CipherBank.means ciphers.now) (T.TagBank.means tags.now) reading association self.old self.new (contents_of registers.old) (contents_of registers.new) result }
    {
        self.clock(reading)?;
        self.fields(ciphers, tags, reading, &association)?;
        place_for(registers, reading, &association)?;
        // It finds a place: `place_for` has seen one.
        let _ = registers.associations.put_at(association, reading);
        self.latest = reading;
        Ok(())
    }
}

// The key is free, and a place is.
fn place_for(
    registers: &Registers<'_>,
    reading: u64,
    association: &SecurityAssociation,
) -> Result<(), Refusal>
    ensures { result ≡ decided (place_checks reading association.now registers.now.associations.places.now) tt }
{
    if let Some(held) = registers.association(association.key_of()) {
        if held.last_tick() >= reading {
            return Err(Refusal::KeyHeld);
        }
    }
    if !registers.associations.has_room_at(reading) {
        return Err(Refusal::RegisterFull {
            capacity: registers.associations.capacity(),
        });
    }
    Ok(())
}
