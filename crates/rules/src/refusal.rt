// Why a call is refused.
ghost use Rattle.std.specs.Prelude.{◌≡◌, ◌/◌};
ghost use Rattle.rules.specs.Refusals.{setting_position, policy_position, association_position, number_of, place_of};

use std::error::Error;
use std::fmt;

// The settings of a station, in the order in which they are checked.
#[derive(Clone, Copy, Debug, PartialEq, Eq)]
pub enum Setting {
    OwnNetwork = 1,
    NeId = 2,
    Back = 3,
    Ahead = 4,
    Fallback = 5,
    ProtectedList = 6,
    ProfileLines = 7,
}

// Its position among the settings, from 1 to 7.
// An impl for each of the three enums: `as` names the type whose number it takes.
impl From<Setting> for u8 {
    ghost from_gives = { λ setting position. position ≡ setting_position setting };

    fn from(setting: Setting) -> u8 {
        setting as u8
    }
}

// The fields of a policy.
#[derive(Clone, Copy, Debug, PartialEq, Eq)]
pub enum PolicyField {
    Network = 1,
    Stance = 2,
}

// Its position in the policy, 1 or 2.
impl From<PolicyField> for u8 {
    ghost from_gives = { λ field position. position ≡ policy_position field };

    fn from(policy_field: PolicyField) -> u8 {
        policy_field as u8
    }
}

// The fields of a security association.
#[derive(Clone, Copy, Debug, PartialEq, Eq)]
pub enum AssociationField {
    Sender = 1,
    Destination = 2,
    Spi = 3,
    Mea = 4,
    CipherKey = 5,
    Mia = 6,
    IntegrityKey = 7,
    Ppi = 8,
    SoftExpiry = 9,
    HardExpiry = 10,
}

// Its position in the record, from 1 to 10.
impl From<AssociationField> for u8 {
    ghost from_gives = { λ field position. position ≡ association_position field };

    fn from(association_field: AssociationField) -> u8 {
        association_field as u8
    }
}

// A cause for each refusal. A case holds what its place needs: a count of octets or places, or where in the message the fault lies.
#[derive(Clone, Copy, Debug, PartialEq, Eq)]
pub enum Refusal {
    MessageTooShort { length: usize },
    CleartextTooLong { place: usize },
    UnknownKind { place: usize },
    WrongReading,
    NoPolicy,
    SecuredFromPlainNetwork,
    ListedUnprotected { place: usize },
    NoLiveAssociation,
    KeyHeld,
    WrongPolicy { field: PolicyField },
    WrongAssociation { field: AssociationField },
    KeyNotHeld,
    RegisterFull { capacity: usize },
    OutsideWindow,
    TagDiffers { place: usize },
    HeardBefore,
    HeardFull { capacity: usize },
    TickFull,
    OutputTooShort { needed: usize },
    WrongSetting { setting: Setting },
}

impl Refusal {
    // The number that stands for the cause.
    pub fn number(self) -> u8
        ensures { result ≡ number_of self }
    {
        match self {
            Refusal::MessageTooShort { .. } => 11,
            Refusal::CleartextTooLong { .. } => 12,
            Refusal::UnknownKind { .. } => 13,
            Refusal::WrongReading => 14,
            Refusal::NoPolicy => 21,
            Refusal::SecuredFromPlainNetwork => 22,
            Refusal::ListedUnprotected { .. } => 23,
            Refusal::NoLiveAssociation => 31,
            Refusal::KeyHeld => 32,
            Refusal::WrongPolicy { .. } | Refusal::WrongAssociation { .. } => 33,
            Refusal::KeyNotHeld => 34,
            Refusal::RegisterFull { .. } => 35,
            Refusal::OutsideWindow => 41,
            Refusal::TagDiffers { .. } => 42,
            Refusal::HeardBefore => 43,
            Refusal::HeardFull { .. } => 44,
            Refusal::TickFull => 45,
            Refusal::OutputTooShort { .. } => 51,
            Refusal::WrongSetting { .. } => 61,
        }
    }

    // The layer that refuses: the tens of the number.
    pub fn layer(self) -> u8
        ensures { result ≡ number_of self / 10 }
    {
        self.number() / 10
    }

    // The place of the fault: in the message, in the record or among the settings, or how many octets or places there are.
    pub fn place(self) -> usize
        ensures { result ≡ place_of self }
    {
        match self {
            Refusal::MessageTooShort { length } => length,
            Refusal::CleartextTooLong { place }
            | Refusal::UnknownKind { place }
            | Refusal::ListedUnprotected { place }
            | Refusal::TagDiffers { place } => place,
            Refusal::KeyHeld => 3,
            Refusal::WrongPolicy { field } => usize::from(u8::from(field)),
            Refusal::WrongAssociation { field } => usize::from(u8::from(field)),
            Refusal::RegisterFull { capacity } | Refusal::HeardFull { capacity } => capacity,
            Refusal::OutsideWindow => 6,
            Refusal::HeardBefore => 6,
            Refusal::TickFull => 200,
            Refusal::OutputTooShort { needed } => needed,
            Refusal::WrongSetting { setting } => usize::from(u8::from(setting)),
            Refusal::WrongReading
            | Refusal::NoPolicy
            | Refusal::SecuredFromPlainNetwork
            | Refusal::NoLiveAssociation
            | Refusal::KeyNotHeld => 0,
        }
    }
}

impl fmt::Display for Setting {
    fn fmt<W: fmt::Write>(&self, f: &mut fmt::Formatter<W>) -> fmt::Result {
        f.write_str(match self {
            Setting::OwnNetwork => "the own network is a PLMN-Id of 24 bits: 0 to 16777215",
            Setting::NeId => "the NE-Id has six octets: 0 to 281474976710655",
            Setting::Back => "back is 0 to 6000 ticks",
            Setting::Ahead => "ahead is 0 to 600 ticks",
            Setting::Fallback => "fallback is allowed or not",
            Setting::ProtectedList =>
                "the protected list has at most 64 identifiers, each of kind 1, 2 or 3",
            Setting::ProfileLines =>
                "there are at most 64 profile lines, each of level 1 to 6, and no two for one PPI and code",
        })
    }
}

impl fmt::Display for PolicyField {
    fn fmt<W: fmt::Write>(&self, f: &mut fmt::Formatter<W>) -> fmt::Result {
        f.write_str(match self {
            PolicyField::Network => "the network is a PLMN-Id of 24 bits: 0 to 16777215",
            PolicyField::Stance => "the stance is 0 (remove), 1 (plain) or 2 (MAPsec)",
        })
    }
}

impl fmt::Display for AssociationField {
    fn fmt<W: fmt::Write>(&self, f: &mut fmt::Formatter<W>) -> fmt::Result {
        match self {
            AssociationField::Sender => f.write_str(
                "the sending network is a PLMN-Id of 24 bits, and it or the destination is the own network",
            ),
            AssociationField::Destination => f.write_str(
                "the destination network is a PLMN-Id of 24 bits: 0 to 16777215",
            ),
            AssociationField::Spi => f.write_str("the SPI"),
            AssociationField::Mea => f.write_str(
                "the MEA number is one that the station has a cipher for",
            ),
            AssociationField::CipherKey => f.write_str("the cipher key"),
            AssociationField::Mia => f.write_str(
                "the MIA number is one that the station has a tag for",
            ),
            AssociationField::IntegrityKey => f.write_str("the integrity key"),
            AssociationField::Ppi => f.write_str("the PPI"),
            AssociationField::SoftExpiry => f.write_str(
                "the soft expiry is not above the hard expiry",
            ),
            AssociationField::HardExpiry => f.write_str(
                "the hard expiry is above the reading, and at most 2147483648 ticks above it",
            ),
        }
    }
}

// The cause in words, for the operator.
impl fmt::Display for Refusal {
    fn fmt<W: fmt::Write>(&self, f: &mut fmt::Formatter<W>) -> fmt::Result {
        match *self {
            Refusal::MessageTooShort { length } => write!(
                f,
                "the message is too short for its header and tag: {length} octets"
            ),
            Refusal::CleartextTooLong { .. } => f.write_str(
                "the cleartext has more than 1024 octets",
            ),
            Refusal::UnknownKind { .. } => f.write_str(
                "the component is of no known kind: 1 is invoke, 2 result, 3 error",
            ),
            Refusal::WrongReading => f.write_str(
                "the reading is before the latest one, or above 281474976710655",
            ),
            Refusal::NoPolicy => f.write_str("there is no policy for the network"),
            Refusal::SecuredFromPlainNetwork => f.write_str(
                "a secured message came from a network whose policy is plain",
            ),
            Refusal::ListedUnprotected { .. } => f.write_str(
                "a component of the protected list came unprotected, and fallback is not allowed",
            ),
            Refusal::NoLiveAssociation => f.write_str(
                "there is no live security association for it",
            ),
            Refusal::KeyHeld => f.write_str(
                "a live security association holds this destination and SPI",
            ),
            Refusal::WrongPolicy { field } => write!(f, "wrong field of the policy: {field}"),
            Refusal::WrongAssociation { field } => write!(
                f,
                "wrong field of the security association: {field}"
            ),
            Refusal::KeyNotHeld => f.write_str(
                "no security association has this destination and SPI",
            ),
            Refusal::RegisterFull { capacity } => write!(
                f,
                "the register is full: {capacity} places"
            ),
            Refusal::OutsideWindow => f.write_str(
                "the stamp is outside the window: too old or too far ahead",
            ),
            Refusal::TagDiffers { .. } => f.write_str("the tag is not that of the message"),
            Refusal::HeardBefore => f.write_str("the message was heard before"),
            Refusal::HeardFull { capacity } => write!(
                f,
                "the register of heard messages is full: {capacity} places"
            ),
            Refusal::TickFull => f.write_str("200 components were protected at this reading"),
            Refusal::OutputTooShort { needed } => write!(
                f,
                "the output is too short: {needed} octets are needed"
            ),
            Refusal::WrongSetting { setting } => write!(f, "wrong setting: {setting}"),
        }
    }
}

impl Error for Refusal {}
