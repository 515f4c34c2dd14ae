// The chain of CBC-MAC over AES-128, as octets come: no part need end at a block, and no length is added up.
ghost use Rattle.std.specs.Prelude.{◌≡◌, ◌<◌, fold};
ghost use Rattle.aes.specs.Cipher.{cipher};
ghost use Rattle.banks.specs.Running.{ChainState, fresh, absorbed, ended};

use aes::cipher::{RoundKeys, encrypt};
use std::marker::Model;

// The chain's value with the octets of an unfinished block added to it, and how many those are: a MAC has no memory but this.
#[derive(Drop)]
pub(crate) struct Chain {
    value: [u8; 16],
    filled: usize,
}

impl Model for Chain {
    ghost Value = { ChainState };

    ghost view = { λ c. record { value = c.value; filled = c.filled } };

    ghost invariant = { λ c. c.filled < 16 };
}

impl Chain {
    // The chain before the first octet.
    pub(crate) fn new() -> Chain
        ensures { result ≡ fresh }
    {
        Chain {
            value: [0; 16],
            filled: 0,
        }
    }

    // An octet more: a block that is full is enciphered.
    #[tactic(auto, using(crate::specs::Chaining::absorbed_last, crate::specs::Chaining::absorbed_more))]
    fn absorb_one(&mut self, keys: &RoundKeys, octet: u8)
        ensures { self.new ≡ absorbed (cipher keys.now.rounds) self.old octet }
    {
        self.value[self.filled] ^= octet;
        self.filled += 1;
        if self.filled == 16 {
            self.value = encrypt(keys, self.value);
            self.filled = 0;
        }
    }

    // All octets of a part, one after the other.
    #[tactic(auto, using(std::proofs::lemmas::List::Sums::fold_more))]
    pub(crate) fn absorb(&mut self, keys: &RoundKeys, octets: &[u8])
        ensures { self.new ≡ fold (absorbed (cipher keys.now.rounds)) self.old octets.now }
    {
        for octet in octets {
            self.absorb_one(keys, *octet);
        }
    }

    // The end: the octet 0x80, and the block enciphered.
    #[tactic(auto, unfolding(crate::specs::Running::ended))]
    pub(crate) fn end(self, keys: &RoundKeys) -> [u8; 16]
        ensures { result ≡ ended (cipher keys.now.rounds) self }
    {
        let mut last = self.value;
        last[self.filled] ^= 0x80;
        encrypt(keys, last)
    }
}
