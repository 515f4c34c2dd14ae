// Banks of ciphers.
ghost use Rattle.std.specs.Prelude.{◌≡◌, ℕ, ◌<◌, List, [], map, is_some, bit_xor};
ghost use Rattle.banks.specs.Ciphers.{Cipher, Ciphers, Lawful, ciphered, only, unchanged, first_octet_added, Involution};
ghost use Rattle.std.proofs.Common.{rules, arith};
ghost use Rattle.banks.specs.Laws.{only_found};
ghost use Rattle.banks.specs.Mea1.{mea1};
ghost use Rattle.banks.specs.Stream.{mea1_involution, test_involution};

use crate::counter::add_stream;
use keys::{Iv, Key};

// A bank of ciphers: under a number from 0 to 15 it has a cipher or none.
// A cipher takes key, IV and octets to as many octets, and applied twice gives the octets back.
pub trait CipherBank {
    // For each number nothing, or the function of its cipher.
    ghost means: { Self → Ciphers };

    // The `&mut`s that it holds, by their ghost names, so that who lent them learns that they are held still: most banks hold none.
    ghost held: { Self → List ℕ } = { λ _. [] };

    // Whether the bank has a cipher of this number.
    fn knows(&self, number: u8) -> bool
        ensures { result ≡ is_some (means self.now number) };

    // Replaces the octets by the cipher's, and leaves them under a number that is not known. The meaning stays.
    fn run(&mut self, number: u8, key: &Key, iv: &Iv, octets: &mut [u8])
        ensures stays { means self.new ≡ means self.old }
        ensures holds { held self.new ≡ held self.old }
        ensures octets { octets.new ≡ ciphered (means self.old) number key.now iv.now octets.old };

    ghost lawful: { (bank : Self) → Lawful (means bank) };
}

// One cipher, with its number.
pub trait CipherAlgorithm {
    const NUMBER: u8;

    ghost NUMBER: { ℕ };

    // Its function of key, IV and octets.
    ghost function: { Cipher };

    // Replaces the octets by the cipher's.
    fn apply(key: &Key, iv: &Iv, octets: &mut [u8])
        ensures { octets.new ≡ function key.now iv.now octets.old };

    ghost small: { NUMBER < 16 };

    ghost involution: { Involution function };
}

// A cipher is a bank that knows its number alone.
impl<C: CipherAlgorithm> CipherBank for C {
    ghost means = { λ _. only C.NUMBER C.function };

    ghost lawful = { λ _. only_found (λ n f. (n < 16) × Involution f) C.NUMBER C.function (C.small, C.involution) };

    fn knows(&self, number: u8) -> bool {
        number == C::NUMBER
    }

    fn run(&mut self, number: u8, key: &Key, iv: &Iv, octets: &mut [u8]) {
        if number == C::NUMBER {
            C::apply(key, iv, octets);
        }
    }
}

// The null cipher, number 0: the octets as they are.
#[derive(Clone, Copy)]
pub struct NullCipher;

impl CipherAlgorithm for NullCipher {
    const NUMBER: u8 = 0;

    ghost NUMBER = { 0 };

    ghost function = { unchanged };

    ghost small = { Prim.search rules };

    ghost involution = { Prim.search rules };

    fn apply(_key: &Key, _iv: &Iv, _octets: &mut [u8]) {}
}

// MEA-1, number 1: AES-128 in counter mode.
#[derive(Clone, Copy)]
pub struct Mea1;

impl CipherAlgorithm for Mea1 {
    const NUMBER: u8 = 1;

    ghost NUMBER = { 1 };

    ghost function = { mea1 };

    ghost small = { Prim.search rules };

    ghost involution = { mea1_involution };

    fn apply(key: &Key, iv: &Iv, octets: &mut [u8]) {
        add_stream(key, iv, octets);
    }
}

// A cipher for tests, number 15: each octet exclusive-or the key's first octet.
#[derive(Clone, Copy)]
pub struct TestCipher;

// Each octet exclusive-or one octet.
fn add_octet(octets: &mut [u8], other: u8)
    ensures { octets.new ≡ map (λ x. bit_xor x other) octets.old }
{
    for octet in octets.iter_mut() {
        *octet ^= other;
    }
}

impl CipherAlgorithm for TestCipher {
    const NUMBER: u8 = 15;

    ghost NUMBER = { 15 };

    ghost function = { first_octet_added };

    ghost small = { Prim.search rules };

    ghost involution = { test_involution };

    fn apply(key: &Key, _iv: &Iv, octets: &mut [u8]) {
        let [first, ..] = <[u8; 16]>::from(*key);
        add_octet(octets, first);
    }
}
