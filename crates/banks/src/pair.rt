// Two banks as one.
ghost use Rattle.std.specs.Prelude.{◌++◌};
ghost use Rattle.banks.specs.Ciphers.{either};
ghost use Rattle.std.proofs.Common.{rules};

use crate::cipher::CipherBank;
use crate::tag::TagBank;
use keys::{Iv, Key};

// A bank of either sort: what the first means, or else the second.
// Two impls: a bound names one trait, and one over both traits would have to take the calls as closures.
#[derive(Clone, Copy)]
pub struct Pair<X, Y>(pub X, pub Y);

impl<X: CipherBank, Y: CipherBank> CipherBank for Pair<X, Y> {
    ghost means = { λ p. either (X.CipherBank.means p.0) (Y.CipherBank.means p.1) };

    ghost held = { λ p. X.CipherBank.held p.0 ++ Y.CipherBank.held p.1 };

    ghost lawful = { Prim.search rules };

    fn knows(&self, number: u8) -> bool {
        self.0.knows(number) | self.1.knows(number)
    }

    fn run(&mut self, number: u8, key: &Key, iv: &Iv, octets: &mut [u8]) {
        if self.0.knows(number) {
            self.0.run(number, key, iv, octets);
        } else {
            self.1.run(number, key, iv, octets);
        }
    }
}

impl<X: TagBank, Y: TagBank> TagBank for Pair<X, Y> {
    ghost means = { λ p. either (X.TagBank.means p.0) (Y.TagBank.means p.1) };

    ghost held = { λ p. X.TagBank.held p.0 ++ Y.TagBank.held p.1 };

    ghost lawful = { Prim.search rules };

    fn knows(&self, number: u8) -> bool {
        self.0.knows(number) | self.1.knows(number)
    }

    fn tag(&mut self, number: u8, key: &Key, first: &[u8], second: &[u8]) -> u32 {
        if self.0.knows(number) {
            self.0.tag(number, key, first, second)
        } else {
            self.1.tag(number, key, first, second)
        }
    }
}
