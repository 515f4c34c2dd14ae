// Numbers and octets as the command language writes them.
ghost use Rattle.std.specs.Prelude.{◌≡◌, ℕ, ◌<◌, ◌≤◌, IfOk, Some, vec_items, decimal};
ghost use Rattle.std.specs.Option.{SomeIff, option_map};
ghost use Rattle.std.specs.Char.{digit_value};
ghost use Rattle.words.specs.Numbers.{numeral, number, key, octets, answer_number};

use keys::Key;
use std::alloc::{AllocError, Global};

/// An unsigned number of some width: each number up to its limit is one.
pub trait Unsigned: Copy {
    const LIMIT: u64;

    ghost LIMIT: { ℕ };

    ghost value: { Self → ℕ };

    /// That number, in this width.
    fn narrow(number: u64) -> Self
        requires { number ≤ LIMIT }
        ensures { value result ≡ number };
}

// An impl for each width: `as` names the type that it narrows to.
impl Unsigned for u8 {
    const LIMIT: u64 = u8::MAX as u64;

    ghost LIMIT = { 255 };

    ghost value = { λ n. n };

    fn narrow(number: u64) -> u8 {
        number as u8
    }
}

impl Unsigned for u16 {
    const LIMIT: u64 = u16::MAX as u64;

    ghost LIMIT = { 65535 };

    ghost value = { λ n. n };

    fn narrow(number: u64) -> u16 {
        number as u16
    }
}

impl Unsigned for u32 {
    const LIMIT: u64 = u32::MAX as u64;

    ghost LIMIT = { 4294967295 };

    ghost value = { λ n. n };

    fn narrow(number: u64) -> u32 {
        number as u32
    }
}

impl Unsigned for u64 {
    const LIMIT: u64 = u64::MAX;

    ghost LIMIT = { 18446744073709551615 };

    ghost value = { λ n. n };

    fn narrow(number: u64) -> u64 {
        number
    }
}

/// The number of at most `limit` that the digits stand for in a base: one digit or more, and
/// nothing else.
fn numeral(digits: &[u8], base: u32, limit: u64) -> Option<u64>
    requires { (2 ≤ base) × (base ≤ 16) }
    ensures { result ≡ numeral base limit digits.now }
{
    if digits.is_empty() {
        return None;
    }
    let mut value: u64 = 0;
    for octet in digits {
        let digit = (*octet as char).to_digit(base)?;
        let next = u128::from(value) * u128::from(base) + u128::from(digit);
        if next > u128::from(limit) {
            return None;
        }
        value = next as u64;
    }
    Some(value)
}

/// The number of at most `limit` that a word stands for, decimal or `0x..`. A number as `{n}`
/// writes it is read back.
#[tactic(auto, unfolding(crate::specs::Numbers::number))]
pub fn number(word: &[u8], limit: u64) -> Option<u64>
    ensures value { result ≡ number limit word.now }
    ensures reads_back { (n : ℕ) → n ≤ limit → word.now ≡ decimal n → result ≡ Some n }
{
    match word.strip_prefix(b"0x") {
        Some(digits) => numeral(digits, 16, limit),
        None => numeral(word, 10, limit),
    }
}

/// The key that a word of 32 hexadecimal digits stands for.
#[tactic(auto, unfolding(crate::specs::Numbers::key))]
pub fn key(word: &[u8]) -> Option<Key>
    ensures { result ≡ key word.now }
{
    if word.len() != 32 {
        return None;
    }
    let (high, low) = word.split_at(16);
    Some(Key {
        high: numeral(high, 16, u64::MAX)?,
        low: numeral(low, 16, u64::MAX)?,
    })
}

/// What a hexadecimal digit stands for.
fn hex_digit(octet: u8) -> Option<u8>
    ensures { SomeIff result (digit_value octet < 16) (digit_value octet) }
{
    let digit = (octet as char).to_digit(16)?;
    Some(digit as u8)
}

/// The octets that a word stands for: `-` for none, else pairs of hexadecimal digits.
#[tactic(auto, unfolding(crate::specs::Numbers::octets))]
pub fn octets(heap: Global, word: &[u8]) -> Result<Option<Vec<u8>>, AllocError>
    ensures { IfOk result (λ o. option_map vec_items o ≡ octets word.now) }
{
    let mut read = Vec::new(heap);
    if word == b"-".as_slice() {
        return Ok(Some(read));
    }
    if word.is_empty() || word.len() % 2 != 0 {
        return Ok(None);
    }
    // Two digits at a time, by a pattern: no place is counted.
    let mut left = word;
    while let [high, low, rest @ ..] = left {
        let (Some(high), Some(low)) = (hex_digit(*high), hex_digit(*low)) else {
            return Ok(None);
        };
        read.push(high * 16 + low)?;
        left = rest;
    }
    Ok(Some(read))
}

/// The number N of a word `@N`, which stands for the octets of answer N.
#[tactic(auto, unfolding(crate::specs::Numbers::answer_number))]
pub fn answer_number(word: &[u8]) -> Option<u64>
    ensures { result ≡ answer_number word.now }
{
    number(word.strip_prefix(b"@")?, u64::MAX)
}
