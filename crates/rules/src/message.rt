// The layout of MAPsec messages. No other module knows where a field lies.
ghost use Rattle.std.specs.Prelude.{◌≡◌, ◌+◌, ◌<◌, ◌≤◌, length, MatchResult};
ghost use Rattle.octets.specs.Numbers.{number};
ghost use Rattle.rules.specs.Checks.{decided};
ghost use Rattle.rules.specs.declared.refusal.Refusal.TheVariants.{MessageTooShort};
ghost use Rattle.rules.specs.Layout.{part, open_header, sealed_header, iv_part, iv_octets, header_in, fields_in, header_checks, PartAt, ReadsOpen, ReadsSealed, Reads, ReadingUndoesLayingOut};

use crate::component::ComponentId;
use crate::protection::ProtectionMode;
use crate::refusal::Refusal;
use octets::Octets;

// How many octets the headers have, open and sealed, and the tag.
pub const OPEN_HEADER: usize = 6;

pub const SEALED_HEADER: usize = 20;

pub const TAG: usize = 4;

// A sealed message has a header and a tag at least.
pub const SHORTEST_SEALED: usize = 24;

// What every message starts with: the SPI, and the identifier of the component inside.
#[derive(Clone, Copy, Debug, PartialEq, Eq)]
pub struct SecurityHeader {
    pub spi: u32,
    pub component: ComponentId,
}

// What the header of a protected message has besides, and the IV is made of: the stamp (TVP), the sending element and its count.
#[derive(Clone, Copy, Debug, PartialEq, Eq)]
pub struct IvFields {
    pub tvp: u32,
    pub ne_id: u64,
    pub prop: u32,
}

// How many octets a message has, which are so many at least.
fn length_of(message: &[u8], least: usize) -> Result<usize, Refusal>
    ensures { MatchResult result (λ n. (least ≤ n) × (n ≡ length message.now)) (λ e. (length message.now < least) × (e ≡ MessageTooShort (length message.now))) }
{
    let length = message.len();
    if length < least {
        return Err(Refusal::MessageTooShort { length });
    }
    Ok(length)
}

impl SecurityHeader {
    // The header of a message in mode 0: SPI 4, kind 1, code 1.
    #[tactic(auto, unfolding(octets::specs::Numbers::octets_of, crate::specs::Layout::open_header))]
    pub fn open_octets(self) -> [u8; 6]
        ensures { result ≡ open_header self }
    {
        let [s0, s1, s2, s3]: [u8; 4] = self.spi.to_octets();
        [s0, s1, s2, s3, self.component.kind, self.component.code]
    }

    // The header of a message in mode 1 or 2: SPI 4, kind 1, code 1, TVP 4, NE-Id 6, Prop 4.
    #[tactic(auto, unfolding(octets::specs::Numbers::octets_of, crate::specs::Layout::open_header, crate::specs::Layout::iv_part))]
    pub fn sealed_octets(self, fields: IvFields) -> [u8; 20]
        ensures { result ≡ sealed_header self fields }
    {
        let mut octets = [0; SEALED_HEADER];
        octets[..OPEN_HEADER].copy_from_slice(&self.open_octets());
        octets[OPEN_HEADER..].copy_from_slice(&fields.octets());
        octets
    }

    // The header of a message of either shape.
    pub fn read(message: &[u8]) -> Result<SecurityHeader, Refusal>
        ensures { result ≡ decided (header_checks message.now) (header_in message.now) }
    {
        length_of(message, OPEN_HEADER)?;
        let component = ComponentId {
            kind: message[4],
            code: message[5],
        };
        Ok(SecurityHeader {
            spi: number_at::<4, _>(message, 0),
            component,
        })
    }
}

impl IvFields {
    // What a header and the IV have in common: TVP 4, NE-Id 6, Prop 4.
    #[tactic(auto, unfolding(octets::specs::Numbers::octets_of, crate::specs::Layout::iv_part))]
    fn octets(self) -> [u8; 14]
        ensures { result ≡ iv_part self }
    {
        let [t0, t1, t2, t3]: [u8; 4] = self.tvp.to_octets();
        let [n0, n1, n2, n3, n4, n5]: [u8; 6] = self.ne_id.to_octets();
        let [p0, p1, p2, p3]: [u8; 4] = self.prop.to_octets();
        [t0, t1, t2, t3, n0, n1, n2, n3, n4, n5, p0, p1, p2, p3]
    }

    // The fields in the header of a message.
    fn read(message: &[u8]) -> IvFields
        requires { 20 ≤ length message.now }
        ensures { result ≡ fields_in message.now }
    {
        IvFields {
            tvp: number_at::<4, _>(message, 6),
            ne_id: number_at::<6, _>(message, 10),
            prop: number_at::<4, _>(message, 16),
        }
    }

    // The IV: TVP, NE-Id, Prop and two zero octets.
    pub fn iv(self) -> [u8; 16]
        ensures { result ≡ iv_octets self }
    {
        let mut iv = [0; 16];
        iv[..14].copy_from_slice(&self.octets());
        iv
    }
}

// The number in the N octets from a place on.
fn number_at<const N: usize, T: Octets<N>>(octets: &[u8], place: usize) -> T
    requires { place + N ≤ length octets.now }
    ensures { T.value result ≡ number (part place N octets.now) }
{
    let mut own = [0; N];
    own.copy_from_slice(&octets[place..place + N]);
    T::from_octets(own)
}

// Octets of a message, with the place of the first of them.
#[derive(Clone, Copy, Debug, PartialEq, Eq)]
pub struct Part<'a> {
    pub place: usize,
    pub octets: &'a [u8],
}

impl<'a> Part<'a> {
    // So many octets of a message from a place on.
    fn at(message: &'a [u8], place: usize, width: usize) -> Part<'a>
        requires { place + width ≤ length message.now }
        ensures { PartAt message.now place width result }
    {
        Part {
            place,
            octets: &message[place..place + width],
        }
    }
}

// A message in mode 0.
#[derive(Clone, Copy, Debug, PartialEq, Eq)]
pub struct OpenMessage<'a> {
    pub header: Part<'a>,
    pub payload: Part<'a>,
}

impl<'a> OpenMessage<'a> {
    #[tactic(auto, using(crate::proofs::Layouts::octets_known, crate::proofs::Layouts::open_laid))]
    fn read(message: &'a [u8]) -> Result<OpenMessage<'a>, Refusal>
        ensures { ReadsOpen message.now result }
    {
        let length = length_of(message, OPEN_HEADER)?;
        Ok(OpenMessage {
            header: Part::at(message, 0, OPEN_HEADER),
            payload: Part::at(message, OPEN_HEADER, length - OPEN_HEADER),
        })
    }
}

// A message in mode 1 or 2, with what its header and its tag say as numbers.
#[derive(Clone, Copy, Debug, PartialEq, Eq)]
pub struct SealedMessage<'a> {
    pub header: Part<'a>,
    pub fields: IvFields,
    pub payload: Part<'a>,
    pub tag: Part<'a>,
    pub claimed: u32,
}

impl<'a> SealedMessage<'a> {
    #[tactic(auto, using(crate::proofs::Layouts::octets_known, crate::proofs::Layouts::sealed_laid))]
    fn read(message: &'a [u8]) -> Result<SealedMessage<'a>, Refusal>
        ensures { ReadsSealed message.now result }
    {
        let length = length_of(message, SHORTEST_SEALED)?;
        let end = length - TAG;
        Ok(SealedMessage {
            header: Part::at(message, 0, SEALED_HEADER),
            fields: IvFields::read(message),
            payload: Part::at(message, SEALED_HEADER, length - SHORTEST_SEALED),
            tag: Part::at(message, end, TAG),
            claimed: number_at::<4, _>(message, end),
        })
    }
}

// What reading yields: one of two shapes, whose parts are the message's own octets.
#[derive(Drop)]
pub enum Message<'a> {
    Open(OpenMessage<'a>),
    Sealed(SealedMessage<'a>),
}

// Reads a message of a mode, or refuses one that is too short for its shape.
pub fn read(message: &[u8], mode: ProtectionMode) -> Result<Message<'_>, Refusal>
    ensures { Reads message.now mode result }
{
    if mode.protects() {
        SealedMessage::read(message).map(Message::Sealed)
    } else {
        OpenMessage::read(message).map(Message::Open)
    }
}

// The theorem: reading what was laid out gives the fields back.
#[tactic(auto, using(crate::proofs::Layouts::undone))]
pub fn reading_undoes_laying_out()
    ensures { ReadingUndoesLayingOut }
{}
