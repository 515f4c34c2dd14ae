// AES-128, as FIPS 197 defines it.
#![tactic(auto)]

pub mod cipher;
mod field;
pub mod keys;
pub mod sbox;
pub mod state;
