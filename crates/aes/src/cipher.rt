// The cipher: a key is expanded once, and enciphers any number of blocks.
ghost use Rattle.std.specs.Prelude.{◌≡◌, ◌<◌};
ghost use Rattle.aes.specs.Cipher.{round, last_round, rounds, cipher, schedule, words_key, aes128};
ghost use Rattle.aes.specs.Examples.{Examples};

use crate::keys::words;
use crate::state::{
    State, add_round_key, columns, mix_columns, octets_of, shift_rows, state_of, sub_bytes,
};
use std::array;

// The keys of the rounds 0 to 10, which `expand` makes from a key.
#[derive(Clone, Copy)]
pub struct RoundKeys {
    rounds: [State; 11],
}

// The round keys of a key.
#[tactic(auto, unfolding(crate::specs::Cipher::words_key))]
pub fn expand(key: [u8; 16]) -> RoundKeys
    ensures { result.rounds ≡ schedule key }
{
    let w = words(&key);
    // The key of round n: the words from 4 n on, as columns.
    let round_key = |n: usize| -> State
        requires { n < 11 }
        ensures { result ≡ words_key w n }
    { columns(w[4 * n], w[4 * n + 1], w[4 * n + 2], w[4 * n + 3]) };
    RoundKeys {
        rounds: array::from_fn(round_key),
    }
}

#[tactic(auto, unfolding(crate::specs::Cipher::round))]
fn round(s: State, k: State) -> State
    ensures { result ≡ round k s }
{
    add_round_key(mix_columns(shift_rows(sub_bytes(s))), k)
}

#[tactic(auto, unfolding(crate::specs::Cipher::last_round))]
fn last_round(s: State, k: State) -> State
    ensures { result ≡ last_round k s }
{
    add_round_key(shift_rows(sub_bytes(s)), k)
}

// A block enciphered: under the round keys of a key, AES-128 under that key.
pub fn encrypt(keys: &RoundKeys, block: [u8; 16]) -> [u8; 16]
    ensures { result ≡ cipher keys.now.rounds block }
{
    let mut s = add_round_key(state_of(&block), keys.rounds[0]);
    for key in &keys.rounds[1..10] {
        let next = round(s, *key);
        s = next;
    }
    octets_of(last_round(s, keys.rounds[10]))
}

// AES-128: a block enciphered under a key.
#[tactic(auto, unfolding(crate::specs::Cipher::aes128))]
pub fn encrypt_block(key: [u8; 16], block: [u8; 16]) -> [u8; 16]
    ensures { result ≡ aes128 key block }
{
    encrypt(&expand(key), block)
}

// The examples of FIPS 197, appendices A.1, B and C.1, at the definitions that the contracts cite.
#[tactic(auto, using(crate::proofs::Examples::examples))]
pub fn examples_stand()
    ensures { Examples }
{}
