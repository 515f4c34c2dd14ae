// The calls at a station, as the command language writes them.
#![tactic(auto, unfolding(crate::specs::Calls::parties, crate::specs::Calls::algorithms, crate::specs::Calls::lifetime, crate::specs::Calls::admit, crate::specs::Calls::install, crate::specs::Calls::revoke, crate::specs::Calls::protect, crate::specs::Calls::receive, crate::specs::Calls::plain))]

ghost use Rattle.std.specs.Prelude.{◌≡◌};
ghost use Rattle.calls.specs.Calls.{parties, algorithms, lifetime, admit, install, revoke, protect, receive, plain, called_by, verb, octets_place};

use keys::Key;
use words::fault::{Expected, Fault};
use words::line::Line;

/// Who sends under an association, to whom, and by which SPI.
#[derive(Clone, Copy, Debug, PartialEq, Eq)]
pub struct Parties {
    pub sender: u32,
    pub destination: u32,
    pub spi: u32,
}

/// The cipher and the tag of an association, with their keys.
#[derive(Clone, Copy)]
pub struct Algorithms {
    pub mea: u8,
    pub mek: Key,
    pub mia: u8,
    pub mik: Key,
}

/// The profile of an association, and how long it is used.
#[derive(Clone, Copy, Debug, PartialEq, Eq)]
pub struct Lifetime {
    pub ppi: u16,
    pub soft: u64,
    pub hard: u64,
}

// Kinds, codes and stances are numbers as they are written: a wrong one is for the station to refuse.
/// A call at a station. The octets that it takes stay in its line: `octets_place` says where.
#[derive(Clone, Copy)]
pub enum Call {
    Admit {
        network: u32,
        stance: u8,
    },
    Install {
        reading: u64,
        parties: Parties,
        algorithms: Algorithms,
        lifetime: Lifetime,
    },
    Revoke {
        destination: u32,
        spi: u32,
    },
    Protect {
        reading: u64,
        network: u32,
        kind: u8,
        code: u8,
        room: u64,
    },
    Receive {
        reading: u64,
        network: u32,
        waiting: bool,
        room: u64,
    },
    Plain {
        reading: u64,
        kind: u8,
        code: u8,
        waiting: bool,
    },
}

impl Call {
    /// How a call is written.
    pub fn verb(self) -> &'static str
        ensures { result.now ≡ verb self }
    {
        match self {
            Call::Admit { .. } => "admit",
            Call::Install { .. } => "install",
            Call::Revoke { .. } => "revoke",
            Call::Protect { .. } => "protect",
            Call::Receive { .. } => "receive",
            Call::Plain { .. } => "plain",
        }
    }

    /// The place of the word that stands for the octets of a call.
    pub fn octets_place(self) -> Option<usize>
        ensures { result ≡ octets_place self }
    {
        match self {
            Call::Admit { .. } | Call::Install { .. } | Call::Revoke { .. } => None,
            Call::Protect { .. } | Call::Plain { .. } => Some(6),
            Call::Receive { .. } => Some(5),
        }
    }
}

/// `NAME admit NETWORK STANCE`.
fn admit(line: &Line<'_>) -> Result<Call, Fault>
    ensures { result ≡ admit line.now.octets.now }
{
    let call = Call::Admit {
        network: line.number(2)?,
        stance: line.number(3)?,
    };
    line.end(4)?;
    Ok(call)
}

/// SENDER DESTINATION SPI of `install`.
fn parties_in(line: &Line<'_>) -> Result<Parties, Fault>
    ensures { result ≡ parties line.now.octets.now }
{
    Ok(Parties {
        sender: line.number(3)?,
        destination: line.number(4)?,
        spi: line.number(5)?,
    })
}

/// MEA MEK MIA MIK of `install`.
fn algorithms_in(line: &Line<'_>) -> Result<Algorithms, Fault>
    ensures { result ≡ algorithms line.now.octets.now }
{
    Ok(Algorithms {
        mea: line.number(6)?,
        mek: line.key(7)?,
        mia: line.number(8)?,
        mik: line.key(9)?,
    })
}

/// PPI SOFT HARD of `install`.
fn lifetime_in(line: &Line<'_>) -> Result<Lifetime, Fault>
    ensures { result ≡ lifetime line.now.octets.now }
{
    Ok(Lifetime {
        ppi: line.number(10)?,
        soft: line.number(11)?,
        hard: line.number(12)?,
    })
}

/// `NAME install READING SENDER DESTINATION SPI MEA MEK MIA MIK PPI SOFT HARD`.
fn install(line: &Line<'_>) -> Result<Call, Fault>
    ensures { result ≡ install line.now.octets.now }
{
    let call = Call::Install {
        reading: line.number(2)?,
        parties: parties_in(line)?,
        algorithms: algorithms_in(line)?,
        lifetime: lifetime_in(line)?,
    };
    line.end(13)?;
    Ok(call)
}

/// `NAME revoke DESTINATION SPI`.
fn revoke(line: &Line<'_>) -> Result<Call, Fault>
    ensures { result ≡ revoke line.now.octets.now }
{
    let call = Call::Revoke {
        destination: line.number(2)?,
        spi: line.number(3)?,
    };
    line.end(4)?;
    Ok(call)
}

/// `NAME protect READING NETWORK KIND CODE OCTETS ROOM`; what the octets are is not looked at.
fn protect(line: &Line<'_>) -> Result<Call, Fault>
    ensures { result ≡ protect line.now.octets.now }
{
    let call = Call::Protect {
        reading: line.number(2)?,
        network: line.number(3)?,
        kind: line.number(4)?,
        code: line.number(5)?,
        room: line.number_up_to(7, 65536)?,
    };
    line.end(8)?;
    Ok(call)
}

/// `NAME receive READING NETWORK WAITING OCTETS ROOM`; what the octets are is not looked at.
fn receive(line: &Line<'_>) -> Result<Call, Fault>
    ensures { result ≡ receive line.now.octets.now }
{
    let call = Call::Receive {
        reading: line.number(2)?,
        network: line.number(3)?,
        waiting: line.flag(4)?,
        room: line.number_up_to(6, 65536)?,
    };
    line.end(7)?;
    Ok(call)
}

/// `NAME plain READING KIND CODE WAITING OCTETS`; what the octets are is not looked at.
fn plain(line: &Line<'_>) -> Result<Call, Fault>
    ensures { result ≡ plain line.now.octets.now }
{
    let call = Call::Plain {
        reading: line.number(2)?,
        kind: line.number(3)?,
        code: line.number(4)?,
        waiting: line.flag(5)?,
    };
    line.end(7)?;
    Ok(call)
}

/// The call that the second word of a line begins.
#[tactic(auto, unfolding(crate::specs::Calls::called_by))]
pub fn read_call(line: Line<'_>) -> Result<Call, Fault>
    ensures { result ≡ called_by line.entry.octets.now }
{
    match line.word(1) {
        b"admit" => admit(&line),
        b"install" => install(&line),
        b"revoke" => revoke(&line),
        b"protect" => protect(&line),
        b"receive" => receive(&line),
        b"plain" => plain(&line),
        _ => Err(Fault {
            place: 1,
            expected: Expected::Call,
        }),
    }
}
