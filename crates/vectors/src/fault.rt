// Why a line is not answered.
use std::alloc::AllocError;
use thiserror::Error;

#[derive(Debug, Drop, Error)]
pub enum Fault {
    #[error("out of memory")]
    Memory(#[from(alloc)] AllocError),
    // No request has this name.
    #[error("expected ecb, cbc, ctr, mac or expand")]
    Unknown,
    // A word is missing.
    #[error("{0} is missing")]
    Missing(&'static str),
    // A word is not hex digits, two for each octet.
    #[error("{0} is not pairs of hex digits")]
    NotHex(&'static str),
    // A word is not sixteen octets.
    #[error("{0} is not sixteen octets")]
    NotSixteen(&'static str),
    // The octets are not whole blocks.
    #[error("the octets are not whole blocks of sixteen")]
    NotWhole,
    // There are more words than the request has.
    #[error("there are too many words")]
    TooMany,
}
