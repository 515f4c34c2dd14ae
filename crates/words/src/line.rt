// What the word at a place of a line stands for, or the fault that it is something else.
#![tactic(auto, unfolding(crate::specs::Reading::number_at, crate::specs::Reading::key_at, crate::specs::Reading::flag_at, crate::specs::Reading::keyword_at, crate::specs::Reading::end_at, crate::specs::Reading::field_at, crate::specs::Reading::switch_at))]

ghost use Rattle.std.specs.Prelude.{◌≡◌, ℕ, ◌<◌, ◌≤◌, [], map, slice_index_or, IfOk};
ghost use Rattle.words.specs.Reading.{Tells, flag as flag_of, number_at, key_at, flag_at, keyword_at, end_at, field_at, switch_at};
ghost use Rattle.words.specs.Words.{word_at};

use crate::cut::{first_word, word_at as word_from_start};
use crate::fault::{Expected, Fault, Keyword};
use crate::numbers::{Unsigned, key, number};
use keys::Key;

// By name: `bool` is no type of ours to convert to.
/// What `yes` and `no` stand for.
fn yes_or_no(word: &[u8]) -> Option<bool>
    ensures { result ≡ flag_of word.now }
{
    match word {
        b"yes" => Some(true),
        b"no" => Some(false),
        _ => None,
    }
}

/// How many words a statement has at most, with the one after them, which is not to be there.
const WORDS: usize = 17;

/// A line and its first words, which are cut once, so that none is passed again for those behind it.
/// Each is read by its place, counted from 0.
#[derive(Clone, Copy)]
pub struct Line<'a> {
    pub octets: &'a [u8],
    words: [&'a [u8]; WORDS],
    ghost cut: { (n : ℕ) → n < 17 → slice_index_or (map (λ w. w.now) words) n [] ≡ word_at n octets.now },
}

impl<'a> Line<'a> {
    /// The line that octets are.
    pub fn of(octets: &'a [u8]) -> Line<'a>
        ensures { result.octets.now ≡ octets.now }
    {
        let mut words = [&octets[..0]; WORDS];
        let mut left = octets;
        // By index: that these are the words of the line is said by their places.
        for i in 0..WORDS {
            if left.is_empty() {
                break;
            }
            let (word, rest) = first_word(left);
            words[i] = word;
            left = rest;
        }
        Line { octets, words }
    }

    /// The word at a place; it is empty where the line has ended.
    pub fn word(&self, place: usize) -> &'a [u8]
        ensures { result.now ≡ word_at place self.now.octets.now }
    {
        match self.words.get(place) {
            Some(word) => *word,
            None => word_from_start(self.octets, place),
        }
    }

    /// The number of at most `limit` at a place.
    pub fn number_up_to(&self, place: usize, limit: u64) -> Result<u64, Fault>
        ensures value { result ≡ number_at limit place self.now.octets.now }
        ensures bound { IfOk result (λ n. n ≤ limit) }
    {
        number(self.word(place), limit).ok_or(Fault {
            place,
            expected: Expected::Number { limit },
        })
    }

    /// The number at a place, of as many bits as are asked for.
    pub fn number<T: Unsigned>(&self, place: usize) -> Result<T, Fault>
        ensures { Tells T.value result (number_at T.LIMIT place self.now.octets.now) }
    {
        let number = self.number_up_to(place, T::LIMIT)?;
        Ok(T::narrow(number))
    }

    /// The key at a place.
    pub fn key(&self, place: usize) -> Result<Key, Fault>
        ensures { result ≡ key_at place self.now.octets.now }
    {
        key(self.word(place)).ok_or(Fault {
            place,
            expected: Expected::Key,
        })
    }

    /// The `yes` or `no` at a place.
    pub fn flag(&self, place: usize) -> Result<bool, Fault>
        ensures { result ≡ flag_at place self.now.octets.now }
    {
        yes_or_no(self.word(place)).ok_or(Fault {
            place,
            expected: Expected::YesOrNo,
        })
    }

    /// Sees that a keyword stands at a place.
    pub fn keyword(&self, place: usize, keyword: Keyword) -> Result<(), Fault>
        ensures { result ≡ keyword_at keyword place self.now.octets.now }
    {
        if self.word(place) == keyword.text().as_bytes() {
            Ok(())
        } else {
            Err(Fault {
                place,
                expected: Expected::Keyword(keyword),
            })
        }
    }

    /// Sees that the line has ended before a place.
    pub fn end(&self, place: usize) -> Result<(), Fault>
        ensures { result ≡ end_at place self.now.octets.now }
    {
        if self.word(place).is_empty() {
            Ok(())
        } else {
            Err(Fault {
                place,
                expected: Expected::End,
            })
        }
    }

    // `field` and `switch` each end in a reader of their own: a function over both would take it as a closure.
    /// A keyword at a place, and the number of 64 bits after it.
    pub fn field(&self, place: usize, keyword: Keyword) -> Result<u64, Fault>
        ensures { result ≡ field_at keyword place self.now.octets.now }
    {
        self.keyword(place, keyword)?;
        self.number(place + 1)
    }

    /// A keyword at a place, and the `yes` or `no` after it.
    pub fn switch(&self, place: usize, keyword: Keyword) -> Result<bool, Fault>
        ensures { result ≡ switch_at keyword place self.now.octets.now }
    {
        self.keyword(place, keyword)?;
        self.flag(place + 1)
    }
}
