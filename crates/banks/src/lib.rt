// Banks of ciphers and of tags: what they promise, and the ones that are delivered.
#![tactic(auto)]

mod chain;
pub mod cipher;
mod counter;
pub mod delivered;
pub mod lent;
mod mac;
pub mod pair;
pub mod tag;

// A cipher bank and a tag bank, which are lent together.
#[derive(Clone, Copy)]
pub struct Banks<C, T> {
    pub ciphers: C,
    pub tags: T,
}
