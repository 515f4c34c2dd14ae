// CBC-MAC over AES-128.
ghost use Rattle.std.specs.Prelude.{◌≡◌, ◌++◌};
ghost use Rattle.banks.specs.Mia1.{mia1};

use crate::chain::Chain;
use aes::cipher::expand;
use keys::Key;
use octets::Octets;

// The tag of two parts joined.
pub fn mac(key: &Key, first: &[u8], second: &[u8]) -> u32
    ensures { result ≡ mia1 key.now (first.now ++ second.now) }
{
    let keys = expand(<[u8; 16]>::from(*key));
    let mut chain = Chain::new();
    chain.absorb(&keys, first);
    chain.absorb(&keys, second);
    let [a, b, c, d, ..] = chain.end(&keys);
    u32::from_octets([a, b, c, d])
}
