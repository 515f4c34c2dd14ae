// What a log is made of.
use rules::component::ComponentId;
use rules::protection::ProtectionMode;
use rules::refusal::Refusal;
use station::records::SecurityAssociation;

// The two stations of a log. The command language has a `Name` of its own for its two: a crate that both saw would hold two words.
#[derive(Clone, Copy, Debug, PartialEq, Eq)]
pub enum Side {
    A,
    B,
}

// A call at a station, with what the station's own call takes. `room` is the length of the output that it is lent.
#[derive(Clone, Copy)]
pub enum Call<'a> {
    Admit {
        network: u32,
        stance: u8,
    },
    Install {
        reading: u64,
        association: SecurityAssociation,
    },
    Revoke {
        destination: u32,
        spi: u32,
    },
    Protect {
        reading: u64,
        network: u32,
        component: ComponentId,
        cleartext: &'a [u8],
        room: usize,
    },
    Receive {
        reading: u64,
        network: u32,
        waiting: bool,
        message: &'a [u8],
        room: usize,
    },
    Plain {
        reading: u64,
        component: ComponentId,
        waiting: bool,
        cleartext: &'a [u8],
    },
}

// A line of a log.
#[derive(Clone, Copy)]
pub struct Line<'a> {
    pub side: Side,
    pub call: Call<'a>,
}

// The answer to a line; `report` is what closing the slip answered, a number as `close` gives it: 0 where nothing is reported.
// Five cases side by side, and no `Result` within: the laws name each of them at one depth.
#[derive(Drop)]
pub enum Answer {
    Done,
    Refused {
        refusal: Refusal,
        report: u8,
    },
    WentPlain,
    Sent {
        mode: ProtectionMode,
        message: Vec<u8>,
    },
    Handed {
        component: ComponentId,
        mode: ProtectionMode,
        cleartext: Vec<u8>,
        report: u8,
    },
}
