// Keys and IVs: sixteen octets as numbers, the most significant octet first.
#![tactic(auto)]

ghost use Rattle.keys.specs.Keys.{IsKeyOf, IsIvOf};

use octets::Octets;

// A key: its first eight octets as one number, and its last eight.
#[derive(Clone, Copy)]
pub struct Key {
    pub high: u64,
    pub low: u64,
}

// An IV: the number that its sixteen octets are.
#[derive(Clone, Copy)]
pub struct Iv {
    pub counter: u128,
}

// The key of sixteen octets, and back.
impl From<[u8; 16]> for Key {
    ghost from_gives = { λ octets key. IsKeyOf key octets };

    fn from(octets: [u8; 16]) -> Key {
        let [a, b, c, d, e, f, g, h, i, j, k, l, m, n, o, p] = octets;
        Key {
            high: u64::from_octets([a, b, c, d, e, f, g, h]),
            low: u64::from_octets([i, j, k, l, m, n, o, p]),
        }
    }
}

impl From<Key> for [u8; 16] {
    ghost from_gives = { λ key octets. IsKeyOf key octets };

    fn from(key: Key) -> [u8; 16] {
        let [a, b, c, d, e, f, g, h]: [u8; 8] = key.high.to_octets();
        let [i, j, k, l, m, n, o, p]: [u8; 8] = key.low.to_octets();
        [a, b, c, d, e, f, g, h, i, j, k, l, m, n, o, p]
    }
}

// The IV of sixteen octets, and back.
impl From<[u8; 16]> for Iv {
    ghost from_gives = { λ octets iv. IsIvOf iv octets };

    fn from(octets: [u8; 16]) -> Iv {
        Iv {
            counter: u128::from_octets(octets),
        }
    }
}

impl From<Iv> for [u8; 16] {
    ghost from_gives = { λ iv octets. IsIvOf iv octets };

    fn from(iv: Iv) -> [u8; 16] {
        iv.counter.to_octets()
    }
}
