// Receive: from the octets of a message to a component.
ghost use Rattle.std.specs.Prelude.{◌≡◌, ◌<◌, true, ◌++◌, length, drop, is_ok, is_err};
ghost use Rattle.banks.specs.Banks.{MeanTheSame, HoldTheSame};
ghost use Rattle.rules.specs.Checks.{decided};
ghost use Rattle.rules.specs.Layout.{header_in};
ghost use Rattle.rules.specs.Window.{last_tick};
ghost use Rattle.station.specs.Clock.{read_at};
ghost use Rattle.station.specs.Forms.{association_or_blank};
ghost use Rattle.station.specs.Receive.{association_of, entrance_checks, open_checks, fresh_checks, room_checks, heard_key, HandsOver, Received};
ghost use Rattle.station.specs.Plain.{TakenPlain};
ghost use Rattle.station.specs.Slips.{refusal_number};
ghost use Rattle.station.specs.States.{contents_of};

use crate::protect::{fits, form, short};
use crate::records::{AssociationKey, HeardKey, HeardMessage, SecurityAssociation, Stance};
use crate::registers::Registers;
use crate::seal::turn;
use crate::slip::{Answer, with_slip};
use crate::station::Station;
use banks::Banks;
use banks::cipher::CipherBank;
use banks::tag::TagBank;
use rules::component::ComponentId;
use rules::message::{
    IvFields, Message, OPEN_HEADER, SEALED_HEADER, SealedMessage, SecurityHeader, read,
};
use rules::protection::ProtectionMode;
use rules::refusal::Refusal;

// A component that is handed on; its cleartext is at the front of the output, of this length: a station has no memory of its own.
#[derive(Clone, Copy, Debug, PartialEq, Eq)]
pub struct Handed {
    pub component: ComponentId,
    pub mode: ProtectionMode,
    pub length: usize,
}

// What a sealed message is known by once it was heard.
fn key_of(network: u32, spi: u32, fields: IvFields) -> HeardKey
    ensures { result ≡ heard_key network spi fields }
{
    HeardKey {
        network,
        spi,
        tvp: fields.tvp,
        ne_id: fields.ne_id,
        prop: fields.prop,
    }
}

// Room for the cleartext, and for one more heard message.
fn room(
    registers: &Registers<'_>,
    reading: u64,
    needed: usize,
    output: usize,
) -> Result<(), Refusal>
    ensures { result ≡ decided (room_checks registers.now.heard.places.now reading needed output) tt }
{
    fits(needed, output)?;
    if !registers.heard.has_room_at(reading) {
        return Err(Refusal::HeardFull {
            capacity: registers.heard.capacity(),
        });
    }
    Ok(())
}

impl Station {
    // The association that a network sends under to this station, with an SPI. What the call takes goes on one by one.
    fn association_from(
        &self,
        registers: &Registers<'_>,
        reading: u64,
        network: u32,
        spi: u32,
    ) -> Option<SecurityAssociation>
        ensures { result ≡ association_of self.now.settings.own reading network spi (contents_of registers.now) }
    {
        let key = AssociationKey {
            destination: self.settings.own(),
            spi,
        };
        registers
            .association(key)
            .filter(|a| (a.sender == network) & a.is_live(reading))
    }

    // The header of a message, which has to be of a known kind, from a network that sends MAPsec, under a live association.
    fn entrance(
        &self,
        registers: &Registers<'_>,
        reading: u64,
        network: u32,
        message: &[u8],
    ) -> Result<(SecurityHeader, SecurityAssociation), Refusal>
        ensures { result ≡ decided (entrance_checks self.now.settings (contents_of registers.now) reading network message.now) (header_in message.now, association_or_blank (association_of self.now.settings.own reading network (header_in message.now).spi (contents_of registers.now))) }
    {
        let header = SecurityHeader::read(message)?;
        if header.component.known_kind().is_none() {
            return Err(Refusal::UnknownKind { place: 4 });
        }
        let policy = registers.policy(network).ok_or(Refusal::NoPolicy)?;
        if policy.stance == Stance::Plain {
            return Err(Refusal::SecuredFromPlainNetwork);
        }
        let association = self
            .association_from(registers, reading, network, header.spi)
            .ok_or(Refusal::NoLiveAssociation)?;
        Ok((header, association))
    }

    // An open message: not too long, not of the protected list where there is no fallback, and with room for it.
    fn open(&self, component: ComponentId, payload: &[u8], output: usize) -> Result<(), Refusal>
        ensures { result ≡ decided (open_checks self.now.settings component payload.now output) tt }
    {
        let needed = payload.len();
        short(needed, OPEN_HEADER)?;
        if self.settings.lists(component) & !self.settings.fallback() {
            return Err(Refusal::ListedUnprotected { place: 4 });
        }
        fits(needed, output)
    }

    // A sealed message: fresh, rightly tagged, and not heard before. It answers the last tick at which it is still fresh.
    fn fresh<T: TagBank>(
        &self,
        registers: &Registers<'_>,
        tags: &mut T,
        reading: u64,
        key: HeardKey,
        association: &SecurityAssociation,
        message: &SealedMessage<'_>,
    ) -> Result<u64, Refusal>
        requires { reading < 281474976710656 }
        ensures tags { T.TagBank.means tags.new ≡ T.TagBank.means tags.old }
        ensures holds { T.TagBank.held tags.new ≡ T.TagBank.held tags.old }
        ensures answer { result ≡ decided (fresh_checks self.now.settings (T.TagBank.means tags.old) registers.now.heard.places.now reading key association.now (message.now.header.octets.now ++ message.now.payload.octets.now) message.now.claimed message.now.tag.place) (last_tick self.now.settings.back reading key.tvp) }
    {
        let window = self.settings.window();
        if !window.contains(reading, key.tvp) {
            return Err(Refusal::OutsideWindow);
        }
        if tags.tag(
            association.mia,
            &association.integrity_key,
            message.header.octets,
            message.payload.octets,
        ) != message.claimed
        {
            return Err(Refusal::TagDiffers {
                place: message.tag.place,
            });
        }
        if let Some(heard) = registers.heard.find(key) {
            if heard.last >= reading {
                return Err(Refusal::HeardBefore);
            }
        }
        Ok(window.last_tick(reading, key.tvp))
    }

    // Hands on an open message.
    fn hand_open(
        &mut self,
        reading: u64,
        handed: Handed,
        payload: &[u8],
        output: &mut [u8],
    ) -> Result<Handed, Refusal>
        ensures answer { result ≡ decided (open_checks self.old.settings handed.component payload.now (length output.old)) handed }
        ensures refused { is_err result ≡ true → (self.new ≡ self.old) × (output.new ≡ output.old) }
        ensures accepted { is_ok result ≡ true → (self.new ≡ read_at reading self.old) × (output.new ≡ payload.now ++ drop (length payload.now) output.old) }
    {
        self.open(handed.component, payload, output.len())?;
        output[0..payload.len()].copy_from_slice(payload);
        self.latest = reading;
        Ok(handed)
    }

    // Hands on a sealed message, and remembers that it was heard.
    fn hand_sealed<C: CipherBank, T: TagBank>(
        &mut self,
        registers: &mut Registers<'_>,
        banks: &mut Banks<C, T>,
        reading: u64,
        key: HeardKey,
        association: &SecurityAssociation,
        handed: Handed,
        message: &SealedMessage<'_>,
        output: &mut [u8],
    ) -> Result<Handed, Refusal>
        requires { reading < 281474976710656 }
        ensures banks { MeanTheSame C.CipherBank.means T.TagBank.means banks.old banks.new }
        ensures held { HoldTheSame C.CipherBank.held T.TagBank.held banks.old banks.new }
        ensures hands { HandsOver (record { station = self.old; contents = contents_of registers.old; ciphers = C.CipherBank.means banks.old.ciphers; tags = T.TagBank.means banks.old.tags; reading = reading; key = key; association = association.now; handed = handed; message = message.now; output = output.old }) self.new (contents_of registers.new) output.new result }
    {
        let payload = message.payload.octets;
        let needed = payload.len();
        short(needed, SEALED_HEADER)?;
        let last = self.fresh(
            registers,
            &mut banks.tags,
            reading,
            key,
            association,
            message,
        )?;
        room(registers, reading, needed, output.len())?;
        output[0..needed].copy_from_slice(payload);
        turn(
            &mut banks.ciphers,
            association,
            message.fields,
            handed.mode,
            &mut output[0..needed],
        );
        // It finds a place: `room` has seen one.
        let _ = registers.heard.put_at(HeardMessage { key, last }, reading);
        self.latest = reading;
        Ok(handed)
    }

    // Takes a message apart, and hands its component on.
    fn take<C: CipherBank, T: TagBank>(
        &mut self,
        registers: &mut Registers<'_>,
        banks: &mut Banks<C, T>,
        reading: u64,
        network: u32,
        message: &[u8],
        output: &mut [u8],
    ) -> Result<Handed, Refusal>
        ensures banks { MeanTheSame C.CipherBank.means T.TagBank.means banks.old banks.new }
        ensures held { HoldTheSame C.CipherBank.held T.TagBank.held banks.old banks.new }
        ensures received { Received (record { station = self.old; contents = contents_of registers.old; ciphers = C.CipherBank.means banks.old.ciphers; tags = T.TagBank.means banks.old.tags; reading = reading; network = network; message = message.now; output = output.old }) self.new (contents_of registers.new) output.new result }
    {
        self.clock(reading)?;
        let (header, association) = self.entrance(registers, reading, network, message)?;
        let mode = self.settings.mode(association.ppi, header.component);
        match read(message, mode)? {
            Message::Open(open) => {
                let handed = Handed {
                    component: header.component,
                    mode,
                    length: open.payload.octets.len(),
                };
                self.hand_open(reading, handed, open.payload.octets, output)
            }
            Message::Sealed(sealed) => {
                let handed = Handed {
                    component: header.component,
                    mode,
                    length: sealed.payload.octets.len(),
                };
                let key = key_of(network, header.spi, sealed.fields);
                self.hand_sealed(
                    registers,
                    banks,
                    reading,
                    key,
                    &association,
                    handed,
                    &sealed,
                    output,
                )
            }
        }
    }

    // Receives a message: its component with the cleartext at the front of the output, or why not; and a slip to be closed.
    pub fn receive<C: CipherBank, T: TagBank>(
        &mut self,
        registers: &mut Registers<'_>,
        banks: &mut Banks<C, T>,
        reading: u64,
        network: u32,
        waiting: bool,
        message: &[u8],
        output: &mut [u8],
    ) -> Answer<Handed>
        ensures banks { MeanTheSame C.CipherBank.means T.TagBank.means banks.old banks.new }
        ensures held { HoldTheSame C.CipherBank.held T.TagBank.held banks.old banks.new }
        ensures received { Received (record { station = self.old; contents = contents_of registers.old; ciphers = C.CipherBank.means banks.old.ciphers; tags = T.TagBank.means banks.old.tags; reading = reading; network = network; message = message.now; output = output.old }) self.new (contents_of registers.new) output.new result.outcome }
        ensures slip { result.slip ≡ record { number = refusal_number result.outcome; waiting = waiting } }
    {
        with_slip(
            self.take(registers, banks, reading, network, message, output),
            waiting,
        )
    }

    // The checks of a component that came without MAPsec.
    fn take_plain(
        &mut self,
        reading: u64,
        component: ComponentId,
        length: usize,
    ) -> Result<Handed, Refusal>
        ensures { TakenPlain reading component length self.old self.new result }
    {
        self.clock(reading)?;
        form(component, length)?;
        if self.settings.lists(component) & !self.settings.fallback() {
            return Err(Refusal::ListedUnprotected { place: 0 });
        }
        self.latest = reading;
        Ok(Handed {
            component,
            mode: ProtectionMode::NoProtection,
            length,
        })
    }

    // Takes a component that came without MAPsec, and writes nothing; a slip is left to be closed.
    pub fn plain(
        &mut self,
        reading: u64,
        component: ComponentId,
        waiting: bool,
        cleartext: &[u8],
    ) -> Answer<Handed>
        ensures taken { TakenPlain reading component (length cleartext.now) self.old self.new result.outcome }
        ensures slip { result.slip ≡ record { number = refusal_number result.outcome; waiting = waiting } }
    {
        with_slip(
            self.take_plain(reading, component, cleartext.len()),
            waiting,
        )
    }
}
