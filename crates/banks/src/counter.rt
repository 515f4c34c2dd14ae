// Counter mode of AES-128.
ghost use Rattle.std.specs.Prelude.{◌≡◌};
ghost use Rattle.aes.specs.Cipher.{cipher};
ghost use Rattle.banks.specs.Mea1.{counter_block, mea1};

use aes::cipher::{RoundKeys, encrypt, expand};
use keys::{Iv, Key};
use octets::Octets;

// The enciphered counter block i.
#[tactic(auto, unfolding(crate::specs::Mea1::counter_block))]
fn output_block(keys: &RoundKeys, iv: &Iv, i: usize) -> [u8; 16]
    ensures { result ≡ cipher keys.now.rounds (counter_block iv.now i) }
{
    let counter = iv.counter.wrapping_add(i as u128);
    encrypt(keys, counter.to_octets())
}

// Adds the key stream to the octets, in place.
pub fn add_stream(key: &Key, iv: &Iv, octets: &mut [u8])
    ensures { octets.new ≡ mea1 key.now iv.now octets.old }
{
    let keys = expand(<[u8; 16]>::from(*key));
    let mut block = [0; 16];
    // Octet by octet: of what `chunks_mut` lends, a proof learns nothing once the loan is over.
    for (i, octet) in octets.iter_mut().enumerate() {
        if i % 16 == 0 {
            block = output_block(&keys, iv, i / 16);
        }
        *octet ^= block[i % 16];
    }
}
