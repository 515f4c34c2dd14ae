// The delivered gateway: a station over the delivered banks, ciphers 0 and 1 and tag 1.
#![tactic(auto)]

ghost use Rattle.std.specs.Prelude.{◌≡◌, length};
ghost use Rattle.banks.specs.Delivered.{delivered_ciphers, delivered_tags};
ghost use Rattle.station.specs.Admit.{Admitted};
ghost use Rattle.station.specs.Install.{Installed};
ghost use Rattle.station.specs.Plain.{TakenPlain};
ghost use Rattle.station.specs.Protect.{Protected};
ghost use Rattle.station.specs.Receive.{Received};
ghost use Rattle.station.specs.Revoke.{Revoked};
ghost use Rattle.station.specs.Slips.{refusal_number};
ghost use Rattle.station.specs.States.{contents_of};
ghost use Rattle.delivery.specs.Calls.{protect_call, receive_call};
ghost use Rattle.delivery.specs.Delivered.{SentByAes};
ghost use Rattle.delivery.specs.Reading.{SentIsRead};
ghost use Rattle.delivery.specs.Receiving.{TagByAes, OpenedByAes};

use banks::delivered::{Delivered, delivered};
use rules::component::ComponentId;
use rules::refusal::Refusal;
use rules::settings::Settings;
use station::protect::Sending;
use station::receive::Handed;
use station::records::SecurityAssociation;
use station::registers::Registers;
use station::slip::Answer;
use station::station::Station;

// A station and its banks. Its registers are lent to each call, the same ones each time.
#[derive(Drop)]
pub struct Gateway {
    station: Station,
    banks: Delivered,
}

impl Gateway {
    pub fn new(settings: Settings) -> Gateway
        ensures { result.station ≡ record { settings = settings; latest = 0; tick = 0; sent = 0 } }
    {
        Gateway {
            station: Station::new(settings),
            banks: delivered(),
        }
    }

    // Sets the policy for a network: stance 0 removes it, 1 is plain, 2 is MAPsec. A number, as the station takes it.
    pub fn admit(
        &self,
        registers: &mut Registers<'_>,
        network: u32,
        stance: u8,
    ) -> Result<(), Refusal>
        ensures { Admitted network stance (contents_of registers.old) (contents_of registers.new) result }
    {
        self.station.admit(registers, network, stance)
    }

    // Drops the association under a destination and an SPI, live or not.
    pub fn revoke(
        &self,
        registers: &mut Registers<'_>,
        destination: u32,
        spi: u32,
    ) -> Result<(), Refusal>
        ensures { Revoked destination spi (contents_of registers.old) (contents_of registers.new) result }
    {
        self.station.revoke(registers, destination, spi)
    }

    // Adds a security association, of MEA 0 or 1 and MIA 1.
    pub fn install(
        &mut self,
        registers: &mut Registers<'_>,
        reading: u64,
        association: SecurityAssociation,
    ) -> Result<(), Refusal>
        ensures { Installed delivered_ciphers delivered_tags reading association self.old.station self.new.station (contents_of registers.old) (contents_of registers.new) result }
    {
        self.station.install(
            registers,
            &self.banks.ciphers,
            &self.banks.tags,
            reading,
            association,
        )
    }

    // Makes a message of a component for a network. Under MEA 1 and MIA 1 the octets are those of AES in counter mode and CBC-MAC,
    // and read under the same association they give back the component and its cleartext, with a right tag.
    pub fn protect(
        &mut self,
        registers: &Registers<'_>,
        reading: u64,
        network: u32,
        component: ComponentId,
        cleartext: &[u8],
        output: &mut [u8],
    ) -> Result<Sending, Refusal>
        ensures protected { Protected (protect_call self.old.station (contents_of registers.now) reading network component cleartext.now output.old) self.new.station output.new result }
        ensures by_aes { SentByAes (protect_call self.old.station (contents_of registers.now) reading network component cleartext.now output.old) output.new result }
        ensures reads_back { SentIsRead (protect_call self.old.station (contents_of registers.now) reading network component cleartext.now output.old) output.new result }
    {
        self.station.protect(
            registers,
            &mut self.banks,
            reading,
            network,
            component,
            cleartext,
            output,
        )
    }

    // Receives a message: its component with the cleartext at the front of the output, or why not; and a slip to be closed.
    // Under MIA 1 the CBC-MAC decides about the tag, and under MEA 1 the cleartext is that of AES in counter mode.
    pub fn receive(
        &mut self,
        registers: &mut Registers<'_>,
        reading: u64,
        network: u32,
        waiting: bool,
        message: &[u8],
        output: &mut [u8],
    ) -> Answer<Handed>
        ensures received { Received (receive_call self.old.station (contents_of registers.old) reading network message.now output.old) self.new.station (contents_of registers.new) output.new result.outcome }
        ensures slip { result.slip ≡ record { number = refusal_number result.outcome; waiting = waiting } }
        ensures by_aes { TagByAes (receive_call self.old.station (contents_of registers.old) reading network message.now output.old) result.outcome }
        ensures cleartext_by_aes { OpenedByAes (receive_call self.old.station (contents_of registers.old) reading network message.now output.old) output.new result.outcome }
    {
        self.station.receive(
            registers,
            &mut self.banks,
            reading,
            network,
            waiting,
            message,
            output,
        )
    }

    // Takes a component that came without MAPsec, and writes nothing; a slip is left to be closed.
    pub fn plain(
        &mut self,
        reading: u64,
        component: ComponentId,
        waiting: bool,
        cleartext: &[u8],
    ) -> Answer<Handed>
        ensures taken { TakenPlain reading component (length cleartext.now) self.old.station self.new.station result.outcome }
        ensures slip { result.slip ≡ record { number = refusal_number result.outcome; waiting = waiting } }
    {
        self.station.plain(reading, component, waiting, cleartext)
    }
}
