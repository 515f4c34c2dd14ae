// Banks that are lent.
ghost use Rattle.std.specs.Prelude.{◌≡◌, ◌∷◌, ◌++◌};
ghost use Rattle.banks.specs.Ciphers.{ciphered};
ghost use Rattle.banks.specs.Tags.{tagged};

use crate::cipher::CipherBank;
use crate::tag::TagBank;
use keys::{Iv, Key};

// A bank of either sort that somebody else owns: it means what that one means. An impl for each trait, as of `Pair`.
#[derive(Drop)]
pub struct Lent<'a, B>(pub &'a mut B);

impl<C: CipherBank> CipherBank for Lent<'_, C> {
    ghost means = { λ lent. C.CipherBank.means lent.0.now };

    ghost held = { λ lent. lent.0.ghost_name ∷ C.CipherBank.held lent.0.now };

    ghost lawful = { λ lent. C.CipherBank.lawful lent.0.now };

    fn knows(&self, number: u8) -> bool {
        self.0.knows(number)
    }

    fn run(&mut self, number: u8, key: &Key, iv: &Iv, octets: &mut [u8]) {
        self.0.run(number, key, iv, octets);
    }
}

impl<T: TagBank> TagBank for Lent<'_, T> {
    ghost means = { λ lent. T.TagBank.means lent.0.now };

    ghost held = { λ lent. lent.0.ghost_name ∷ T.TagBank.held lent.0.now };

    ghost lawful = { λ lent. T.TagBank.lawful lent.0.now };

    fn knows(&self, number: u8) -> bool {
        self.0.knows(number)
    }

    fn tag(&mut self, number: u8, key: &Key, first: &[u8], second: &[u8]) -> u32 {
        self.0.tag(number, key, first, second)
    }
}

// The laws of a loan: who lends a bank to a call has it back, as the call left it, and it means what it meant.
pub fn run_while_lent<C: CipherBank>(
    bank: &mut C,
    number: u8,
    key: &Key,
    iv: &Iv,
    octets: &mut [u8],
)
    ensures stays { C.CipherBank.means bank.new ≡ C.CipherBank.means bank.old }
    ensures octets { octets.new ≡ ciphered (C.CipherBank.means bank.old) number key.now iv.now octets.old }
{
    let mut lent = Lent(bank);
    lent.run(number, key, iv, octets);
}

pub fn tag_while_lent<T: TagBank>(
    bank: &mut T,
    number: u8,
    key: &Key,
    first: &[u8],
    second: &[u8],
) -> u32
    ensures stays { T.TagBank.means bank.new ≡ T.TagBank.means bank.old }
    ensures tagged { result ≡ tagged (T.TagBank.means bank.old) number key.now (first.now ++ second.now) }
{
    let mut lent = Lent(bank);
    lent.tag(number, key, first, second)
}
