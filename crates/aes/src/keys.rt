// The key expansion: the words w[0] to w[43].
ghost use Rattle.std.specs.Prelude.{◌≡◌, ℕ, ◌<◌, ◌≤◌, map, slice_index_or};
ghost use Rattle.std.specs.List.{range_with_len};
ghost use Rattle.aes.specs.Keys.{rcon, temp, word};
ghost use Rattle.aes.specs.State.{blank_row};

use crate::state::{Word, word_at};

// The first octets of Rcon[1] to Rcon[10]: the powers of x from 0 to 9.
const RCON: [u8; 10] = [0x01, 0x02, 0x04, 0x08, 0x10, 0x20, 0x40, 0x80, 0x1b, 0x36];

// Rcon[j].
#[tactic(auto, using(crate::proofs::Expansion::rcon_is))]
fn rcon(j: usize) -> Word
    requires { (1 ≤ j) × (j ≤ 10) }
    ensures { result ≡ rcon j }
{
    Word {
        c0: RCON[j - 1],
        ..Word::default()
    }
}

// What is added to w[i - 4] to make w[i], from w[i - 1].
#[tactic(auto, using(crate::proofs::Expansion::temp_fourth, crate::proofs::Expansion::temp_other))]
fn temp(i: usize, previous: Word) -> Word
    requires { (4 ≤ i) × (i < 44) }
    ensures { result ≡ temp i previous }
{
    if i % 4 == 0 {
        previous.turned().substituted() ^ rcon(i / 4)
    } else {
        previous
    }
}

// w[i], from the words before it.
#[tactic(auto, using(crate::proofs::Expansion::word_first, crate::proofs::Expansion::word_next))]
fn word(key: &[u8; 16], before: &[Word; 44], i: usize) -> Word
    requires { (i < 44) × (((k : ℕ) → k < i → slice_index_or before.now k blank_row ≡ word key.now k)) }
    ensures { result ≡ word key.now i }
{
    if i < 4 {
        return word_at(key, i);
    }
    before[i - 4] ^ temp(i, before[i - 1])
}

// All forty-four words.
pub fn words(key: &[u8; 16]) -> [Word; 44]
    ensures { result ≡ map (word key.now) (range_with_len 0 44) }
{
    let mut w = [Word::default(); 44];
    // By index: the rule of w[i] speaks of i, and reads the words that this loop wrote before.
    for i in 0..44 {
        w[i] = word(key, &w, i);
    }
    w
}
