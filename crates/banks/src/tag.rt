// Banks of tags.
ghost use Rattle.std.specs.Prelude.{◌≡◌, ℕ, ◌+◌, ◌%◌, ◌^◌, ◌<◌, List, [], ◌++◌, is_some, sum};
ghost use Rattle.banks.specs.Mia1.{Padding, mia1};
ghost use Rattle.banks.specs.Tags.{Tag, Tags, LawfulTags, tagged, octets_summed};
ghost use Rattle.banks.specs.Ciphers.{only};
ghost use Rattle.std.proofs.Common.{arith, rules};
ghost use Rattle.keys.specs.declared.Key.{Key};
ghost use Rattle.banks.specs.Chaining.{mia1_small};
ghost use Rattle.banks.specs.Laws.{only_found};

use crate::mac::mac;
use keys::Key;
use octets::Octets;

// A bank of tags: under a number from 0 to 15 it has a tag or none. A tag takes key and octets to 32 bits.
pub trait TagBank {
    // For each number nothing, or the function of its tag.
    ghost means: { Self → Tags };

    // The `&mut`s that it holds, as those of a cipher bank.
    ghost held: { Self → List ℕ } = { λ _. [] };

    // Whether the bank has a tag of this number.
    fn knows(&self, number: u8) -> bool
        ensures { result ≡ is_some (means self.now number) };

    // The tag of the two parts joined, and 0 under a number that is not known. The meaning stays.
    fn tag(&mut self, number: u8, key: &Key, first: &[u8], second: &[u8]) -> u32
        ensures stays { means self.new ≡ means self.old }
        ensures holds { held self.new ≡ held self.old }
        ensures tagged { result ≡ tagged (means self.old) number key.now (first.now ++ second.now) };

    ghost lawful: { (bank : Self) → LawfulTags (means bank) };
}

// One tag, with its number.
pub trait TagAlgorithm {
    const NUMBER: u8;

    ghost NUMBER: { ℕ };

    // Its function of key and octets.
    ghost function: { Tag };

    // The tag of the two parts joined.
    fn of(key: &Key, first: &[u8], second: &[u8]) -> u32
        ensures { result ≡ function key.now (first.now ++ second.now) };

    ghost small: { NUMBER < 16 };

    ghost bits: { (key : Key) (xs : List ℕ) → function key xs < 2 ^ 32 };
}

// A tag is a bank that knows its number alone.
impl<T: TagAlgorithm> TagBank for T {
    ghost means = { λ _. only T.NUMBER T.function };

    ghost lawful = { λ _. only_found (λ n f. (n < 16) × ((key : Key) (xs : List ℕ) → f key xs < 2 ^ 32)) T.NUMBER T.function (T.small, T.bits) };

    fn knows(&self, number: u8) -> bool {
        number == T::NUMBER
    }

    fn tag(&mut self, number: u8, key: &Key, first: &[u8], second: &[u8]) -> u32 {
        if number == T::NUMBER {
            T::of(key, first, second)
        } else {
            0
        }
    }
}

// MIA-1, number 1: CBC-MAC over AES-128, always padded, the first four octets.
#[derive(Clone, Copy)]
pub struct Mia1;

impl TagAlgorithm for Mia1 {
    const NUMBER: u8 = 1;

    ghost NUMBER = { 1 };

    ghost function = { mia1 };

    ghost small = { Prim.search rules };

    ghost bits = { mia1_small };

    fn of(key: &Key, first: &[u8], second: &[u8]) -> u32 {
        mac(key, first, second)
    }
}

// The padding of MIA-1 goes to the least multiple of 16 above the length.
#[tactic(auto, using(crate::specs::Chaining::padding))]
pub fn padding_stands()
    ensures { Padding }
{}

// A tag for tests, number 15: the sum of the octets and of the key's first four octets as a number, modulo 2^32.
#[derive(Clone, Copy)]
pub struct TestTag;

// A start and all octets added up, modulo 2^32.
#[tactic(auto, using(std::proofs::lemmas::List::Sums::sum_by_more))]
fn add_up(start: u32, octets: &[u8]) -> u32
    ensures { result ≡ (start + sum octets.now) % 2 ^ 32 }
{
    let mut total = start;
    for octet in octets {
        total = total.wrapping_add(u32::from(*octet));
    }
    total
}

impl TagAlgorithm for TestTag {
    const NUMBER: u8 = 15;

    ghost NUMBER = { 15 };

    ghost function = { octets_summed };

    ghost small = { Prim.search rules };

    ghost bits = { Prim.search rules };

    fn of(key: &Key, first: &[u8], second: &[u8]) -> u32 {
        let [a, b, c, d, ..] = <[u8; 16]>::from(*key);
        let lead = u32::from_octets([a, b, c, d]);
        add_up(add_up(lead, first), second)
    }
}
