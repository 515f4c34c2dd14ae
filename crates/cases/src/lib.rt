// What the worked cases and the trials start from.
#![tactic(auto)]

ghost use Rattle.std.specs.Prelude.{◌≡◌, IfOk};
ghost use Rattle.cases.specs.Cases.{listed, profile, key};

use keys::Key;
use rules::component::ComponentId;
use rules::profile::ProfileLine;
use rules::settings::Draft;
use station::records::SecurityAssociation;
use std::alloc::{AllocError, Global};

/// The settings of the worked cases, of any network: NE-Id 12 34 56 78 90 12, back 300, ahead 50; PPI 7 gives
/// code 37 level 1 and code 56 level 3, and what they protect is listed.
pub fn draft(heap: Global, own: u32, fallback: bool) -> Result<Draft, AllocError>
    ensures numbers { IfOk result (λ d. (d.own ≡ own) × (d.ne_id ≡ 0x123456789012) × (d.back ≡ 300) × (d.ahead ≡ 50) × (d.fallback ≡ fallback)) }
    ensures listed { IfOk result (λ d. d.listed.items ≡ listed) }
    ensures profile { IfOk result (λ d. d.profile.items ≡ profile) }
{
    Ok(Draft {
        own,
        ne_id: 0x123456789012,
        back: 300,
        ahead: 50,
        fallback,
        listed: vec![in heap;
            ComponentId { kind: 1, code: 37 },
            ComponentId { kind: 1, code: 56 },
            ComponentId { kind: 2, code: 56 },
        ]?,
        profile: vec![in heap;
            ProfileLine {
                ppi: 7,
                code: 37,
                level: 1,
            },
            ProfileLine {
                ppi: 7,
                code: 56,
                level: 3,
            },
        ]?,
    })
}

/// The key of the trials: 00 11 22 33 and so on to ff.
pub const KEY: Key = Key {
    high: 0x0011223344556677,
    low: 0x8899aabbccddeeff,
};

/// An association of MEA 1, MIA 1 and PPI 7 under that key.
pub fn association(
    sender: u32,
    destination: u32,
    spi: u32,
    soft: u64,
    hard: u64,
) -> SecurityAssociation
    ensures { result ≡ record { sender = sender; destination = destination; spi = spi; mea = 1; cipher_key = key; mia = 1; integrity_key = key; ppi = 7; soft = soft; hard = hard } }
{
    SecurityAssociation {
        sender,
        destination,
        spi,
        mea: 1,
        cipher_key: KEY,
        mia: 1,
        integrity_key: KEY,
        ppi: 7,
        soft,
        hard,
    }
}
