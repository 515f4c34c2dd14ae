// Protect: from a component to the octets of a message.
ghost use Rattle.std.specs.Prelude.{◌≡◌, ◌≤◌, not, length};
ghost use Rattle.banks.specs.Banks.{MeanTheSame, HoldTheSame};
ghost use Rattle.rules.specs.Checks.{decided};
ghost use Rattle.rules.specs.declared.refusal.Refusal.TheVariants.{NoPolicy};
ghost use Rattle.station.specs.Forms.{fit_checks, length_checks, form_checks};
ghost use Rattle.station.specs.Protect.{room_checks, protected_at as count_at, Sends, Protected};
ghost use Rattle.station.specs.Seal.{message_length as length_of};
ghost use Rattle.station.specs.States.{contents_of};

use crate::choice::choose;
use crate::records::Stance;
use crate::registers::Registers;
use crate::seal::{write_open, write_sealed};
use crate::station::Station;
use banks::Banks;
use banks::cipher::CipherBank;
use banks::tag::TagBank;
use rules::bounds::{LONGEST_CLEARTEXT, PROTECTED_AT_ONCE};
use rules::component::ComponentId;
use rules::message::{IvFields, OPEN_HEADER, SHORTEST_SEALED, SecurityHeader};
use rules::protection::ProtectionMode;
use rules::refusal::Refusal;
use rules::window::stamp_at;

// What becomes of a component: it goes out as it is, or as a message at the front of the output, of this length.
// Not an `Option`: going plain is an answer, and not the want of one. A length: a station has no memory to hand a message out in.
#[derive(Clone, Copy, Debug, PartialEq, Eq)]
pub enum Sending {
    Plain,
    Sent { mode: ProtectionMode, length: usize },
}

// The output has room for so many octets.
pub(crate) fn fits(needed: usize, output: usize) -> Result<(), Refusal>
    ensures { result ≡ decided (fit_checks needed output) tt }
{
    if output < needed {
        return Err(Refusal::OutputTooShort { needed });
    }
    Ok(())
}

// A cleartext, which begins at a place, is not too long.
pub(crate) fn short(length: usize, place: usize) -> Result<(), Refusal>
    ensures { result ≡ decided (length_checks place length) tt }
{
    if length > LONGEST_CLEARTEXT {
        return Err(Refusal::CleartextTooLong { place });
    }
    Ok(())
}

// A component that is handed in is of a known kind, and not too long.
pub(crate) fn form(component: ComponentId, length: usize) -> Result<(), Refusal>
    ensures { result ≡ decided (form_checks component length) tt }
{
    if component.known_kind().is_none() {
        return Err(Refusal::UnknownKind { place: 0 });
    }
    short(length, 0)
}

// How many octets a message of a mode has.
fn message_length(mode: ProtectionMode, cleartext: usize) -> usize
    requires { cleartext ≤ 1024 }
    ensures { result ≡ length_of mode cleartext }
{
    if mode.protects() {
        SHORTEST_SEALED + cleartext
    } else {
        OPEN_HEADER + cleartext
    }
}

// The output has room for the message, and so has the tick.
fn room(mode: ProtectionMode, needed: usize, output: usize, count: u32) -> Result<(), Refusal>
    ensures { result ≡ decided (room_checks mode needed output count) tt }
{
    fits(needed, output)?;
    if mode.protects() & (count >= PROTECTED_AT_ONCE) {
        return Err(Refusal::TickFull);
    }
    Ok(())
}

impl Station {
    // How many components were protected at the reading, for all networks together.
    fn protected_at(&self, reading: u64) -> u32
        ensures { result ≡ count_at reading self.now }
    {
        if self.tick == reading { self.sent } else { 0 }
    }

    // Sends to a network that takes MAPsec.
    fn send<C: CipherBank, T: TagBank>(
        &mut self,
        registers: &Registers<'_>,
        banks: &mut Banks<C, T>,
        reading: u64,
        network: u32,
        component: ComponentId,
        cleartext: &[u8],
        output: &mut [u8],
    ) -> Result<Sending, Refusal>
        requires { length cleartext.now ≤ 1024 }
        ensures banks { MeanTheSame C.CipherBank.means T.TagBank.means banks.old banks.new }
        ensures held { HoldTheSame C.CipherBank.held T.TagBank.held banks.old banks.new }
        ensures sends { Sends (record { station = self.old; contents = contents_of registers.now; ciphers = C.CipherBank.means banks.old.ciphers; tags = T.TagBank.means banks.old.tags; reading = reading; network = network; component = component; cleartext = cleartext.now; output = output.old }) self.new output.new result }
    {
        let association = choose(registers, reading, self.settings.own(), network).ok_or(
            Refusal::NoLiveAssociation,
        )?;
        let mode = self.settings.mode(association.ppi, component);
        let length = message_length(mode, cleartext.len());
        let prop = self.protected_at(reading);
        room(mode, length, output.len(), prop)?;
        let header = SecurityHeader {
            spi: association.spi,
            component,
        };
        if !mode.protects() {
            write_open(header, cleartext, &mut output[0..length]);
            self.latest = reading;
            return Ok(Sending::Sent { mode, length });
        }
        let fields = IvFields {
            tvp: stamp_at(reading),
            ne_id: self.settings.ne_id(),
            prop,
        };
        write_sealed(
            banks,
            &association,
            header,
            fields,
            mode,
            cleartext,
            &mut output[0..length],
        );
        self.latest = reading;
        self.tick = reading;
        self.sent = prop + 1;
        Ok(Sending::Sent { mode, length })
    }

    // Makes a message of a component for a network, at the front of the output, or says that it goes out plain.
    pub fn protect<C: CipherBank, T: TagBank>(
        &mut self,
        registers: &Registers<'_>,
        banks: &mut Banks<C, T>,
        reading: u64,
        network: u32,
        component: ComponentId,
        cleartext: &[u8],
        output: &mut [u8],
    ) -> Result<Sending, Refusal>
        ensures banks { MeanTheSame C.CipherBank.means T.TagBank.means banks.old banks.new }
        ensures held { HoldTheSame C.CipherBank.held T.TagBank.held banks.old banks.new }
        ensures protected { Protected (record { station = self.old; contents = contents_of registers.now; ciphers = C.CipherBank.means banks.old.ciphers; tags = T.TagBank.means banks.old.tags; reading = reading; network = network; component = component; cleartext = cleartext.now; output = output.old }) self.new output.new result }
    {
        self.clock(reading)?;
        form(component, cleartext.len())?;
        let policy = registers.policy(network).ok_or(Refusal::NoPolicy)?;
        match policy.stance {
            Stance::Plain => {
                self.latest = reading;
                Ok(Sending::Plain)
            }
            Stance::Mapsec => self.send(
                registers, banks, reading, network, component, cleartext, output,
            ),
        }
    }
}
