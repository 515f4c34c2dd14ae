// The two stations of the cases, and the lines that their logs are made of.
use anyhow::anyhow;
use banks::delivered::delivered;
use cases::draft;
use keys::Key;
use memory::Places;
use rehearsal::log::{Answer, Call, Line, Side};
use rehearsal::rehearse::{Setup, rehearse};
use rules::component::ComponentId;
use rules::settings::Settings;
use station::records::SecurityAssociation;
use std::alloc::Global;

// The networks of the two stations.
const NETWORK_A: u32 = 1;

const NETWORK_B: u32 = 2;

// Under PPI 7 an invoke of code 37 goes in mode 1.
pub const INVOKE: ComponentId = ComponentId { kind: 1, code: 37 };

// What a station of the cases is made with: no fallback, and so many places for heard messages.
fn setup(heap: Global, own: u32, heard: usize) -> anyhow::Result<Setup> {
    Ok(Setup {
        settings: Settings::new(draft(heap, own, false)?).map_err(|_| anyhow!(
            "the settings of the cases are refused"
        ))?,
        places: Places {
            policies: 64,
            associations: 256,
            heard,
        },
    })
}

// An association of MEA 1 and MIA 1 that A sends to B under for a thousand ticks.
pub fn association(
    spi: u32,
    cipher_key: Key,
    integrity_key: Key,
    reading: u64,
) -> SecurityAssociation {
    SecurityAssociation {
        cipher_key,
        integrity_key,
        ..cases::association(
            NETWORK_A,
            NETWORK_B,
            spi,
            reading,
            reading.saturating_add(1_000),
        )
    }
}

// A station's policy for the other network, and the association.
fn prepare(
    log: &mut Vec<Line<'_>>,
    side: Side,
    network: u32,
    reading: u64,
    association: SecurityAssociation,
) -> anyhow::Result<()> {
    log.push(Line {
        side,
        call: Call::Admit { network, stance: 2 },
    })?;
    log.push(Line {
        side,
        call: Call::Install {
            reading,
            association,
        },
    })?;
    Ok(())
}

// The lines that every log begins with: both stations know the other network and the association.
pub fn beginning<'a>(
    heap: Global,
    reading: u64,
    association: SecurityAssociation,
) -> anyhow::Result<Vec<Line<'a>>> {
    let mut log = Vec::new(heap);
    prepare(&mut log, Side::A, NETWORK_B, reading, association)?;
    prepare(&mut log, Side::B, NETWORK_A, reading, association)?;
    Ok(log)
}

// A line at which A protects a component for B.
pub fn protects(reading: u64, component: ComponentId, cleartext: &[u8]) -> Line<'_> {
    Line {
        side: Side::A,
        call: Call::Protect {
            reading,
            network: NETWORK_B,
            component,
            cleartext,
            room: 2_000,
        },
    }
}

// A line at which B receives a message from A.
pub fn receives(reading: u64, message: &[u8]) -> Line<'_> {
    Line {
        side: Side::B,
        call: Call::Receive {
            reading,
            network: NETWORK_A,
            waiting: false,
            message,
            room: 2_000,
        },
    }
}

// What the stations answer to a log, where each has so many places for heard messages.
pub fn answers(heap: Global, heard: usize, log: &[Line<'_>]) -> anyhow::Result<Vec<Answer>> {
    Ok(rehearse(
        heap,
        setup(heap, NETWORK_A, heard)?,
        setup(heap, NETWORK_B, heard)?,
        &mut delivered(),
        log,
    )?)
}
