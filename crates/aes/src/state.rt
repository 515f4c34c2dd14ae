// The state, an array of four rows, and the transformations of a round.
ghost use Rattle.std.specs.Prelude.{◌≡◌, ◌<◌};
ghost use Rattle.aes.specs.State.{row_octets, sub_row, sub_bytes, turn_row, shift_rows, mixed, mix_row, mix_columns, add_row, add_round_key, word_at, columns, state_of, octets_of};

use crate::field::{double, triple};
use crate::sbox::sub_byte;
use std::ops::BitXor;

// Four octets: a row of the state, its columns from 0 to 3, or a word, its octets from 0 to 3.
#[derive(Clone, Copy, Default)]
pub struct Row {
    pub c0: u8,
    pub c1: u8,
    pub c2: u8,
    pub c3: u8,
}

pub type Word = Row;

pub type State = [Row; 4];

impl Row {
    // SubBytes of a row, and SubWord: each octet through the S-box.
    pub(crate) fn substituted(self) -> Row
        ensures { result ≡ sub_row self }
    {
        Row {
            c0: sub_byte(self.c0),
            c1: sub_byte(self.c1),
            c2: sub_byte(self.c2),
            c3: sub_byte(self.c3),
        }
    }

    // One step of ShiftRows, and RotWord: one place to the left, round the row.
    pub(crate) fn turned(self) -> Row
        ensures { result ≡ turn_row self }
    {
        Row {
            c0: self.c1,
            c1: self.c2,
            c2: self.c3,
            c3: self.c0,
        }
    }
}

// The four octets, in their order.
impl From<Row> for [u8; 4] {
    ghost from_gives = { λ p octets. octets ≡ row_octets p };

    fn from(row: Row) -> [u8; 4] {
        [row.c0, row.c1, row.c2, row.c3]
    }
}

// The sum, octet by octet.
impl BitXor for Row {
    type Output = Row;

    ghost bitxor_gives = { λ p q sum. sum ≡ add_row p q };

    fn bitxor(self, rhs: Row) -> Row {
        Row {
            c0: self.c0 ^ rhs.c0,
            c1: self.c1 ^ rhs.c1,
            c2: self.c2 ^ rhs.c2,
            c3: self.c3 ^ rhs.c3,
        }
    }
}

// SubBytes.
pub(crate) fn sub_bytes(s: State) -> State
    ensures { result ≡ sub_bytes s }
{
    s.map(Row::substituted)
}

// ShiftRows: row r goes r places to the left.
pub(crate) fn shift_rows(s: State) -> State
    ensures { result ≡ shift_rows s }
{
    let [p, q, r, s] = s;
    [
        p,
        q.turned(),
        r.turned().turned(),
        s.turned().turned().turned(),
    ]
}

// 2 p + 3 q + r + s in the field.
#[tactic(auto, unfolding(crate::specs::State::mixed))]
fn mix(p: u8, q: u8, r: u8, s: u8) -> u8
    ensures { result ≡ mixed p q r s }
{
    double(p) ^ triple(q) ^ r ^ s
}

fn mix_row(p: Row, q: Row, r: Row, s: Row) -> Row
    ensures { result ≡ mix_row p q r s }
{
    Row {
        c0: mix(p.c0, q.c0, r.c0, s.c0),
        c1: mix(p.c1, q.c1, r.c1, s.c1),
        c2: mix(p.c2, q.c2, r.c2, s.c2),
        c3: mix(p.c3, q.c3, r.c3, s.c3),
    }
}

// MixColumns: each column times a fixed matrix.
pub(crate) fn mix_columns(s: State) -> State
    ensures { result ≡ mix_columns s }
{
    let [p, q, r, s] = s;
    [
        mix_row(p, q, r, s),
        mix_row(q, r, s, p),
        mix_row(r, s, p, q),
        mix_row(s, p, q, r),
    ]
}

// AddRoundKey.
pub(crate) fn add_round_key(s: State, k: State) -> State
    ensures { result ≡ add_round_key s k }
{
    [s[0] ^ k[0], s[1] ^ k[1], s[2] ^ k[2], s[3] ^ k[3]]
}

// Word i of sixteen octets: those from 4 i on.
pub(crate) fn word_at(octets: &[u8; 16], i: usize) -> Word
    requires { i < 4 }
    ensures { result ≡ word_at octets.now i }
{
    Word {
        c0: octets[4 * i],
        c1: octets[4 * i + 1],
        c2: octets[4 * i + 2],
        c3: octets[4 * i + 3],
    }
}

// The state whose columns are four words.
pub(crate) fn columns(p: Word, q: Word, r: Word, s: Word) -> State
    ensures { result ≡ columns p q r s }
{
    [
        Row {
            c0: p.c0,
            c1: q.c0,
            c2: r.c0,
            c3: s.c0,
        },
        Row {
            c0: p.c1,
            c1: q.c1,
            c2: r.c1,
            c3: s.c1,
        },
        Row {
            c0: p.c2,
            c1: q.c2,
            c2: r.c2,
            c3: s.c2,
        },
        Row {
            c0: p.c3,
            c1: q.c3,
            c2: r.c3,
            c3: s.c3,
        },
    ]
}

// The state of a block: octet r + 4 c goes to row r and column c.
pub(crate) fn state_of(block: &[u8; 16]) -> State
    ensures { result ≡ state_of block.now }
{
    columns(
        word_at(block, 0),
        word_at(block, 1),
        word_at(block, 2),
        word_at(block, 3),
    )
}

// The block of a state, column by column.
pub(crate) fn octets_of(s: State) -> [u8; 16]
    ensures { result ≡ octets_of s }
{
    let [p, q, r, s] = s;
    [
        p.c0, q.c0, r.c0, s.c0, p.c1, q.c1, r.c1, s.c1, p.c2, q.c2, r.c2, s.c2, p.c3, q.c3, r.c3,
        s.c3,
    ]
}
