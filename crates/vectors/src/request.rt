// A request, read from a line and answered.
use crate::fault::Fault;
use crate::modes::{cbc, expanded};
use crate::written;
use aes::cipher::encrypt_block;
use banks::cipher::{CipherAlgorithm, CipherBank, Mea1};
use banks::delivered::delivered;
use banks::tag::{Mia1, TagAlgorithm, TagBank};
use hex::FromHexError;
use keys::{Iv, Key};
use octets::Octets;
use std::alloc::{AllocError, Global};
use std::str::SplitWhitespace;

// What a line asks for.
#[derive(Drop)]
pub enum Request {
    Ecb {
        key: [u8; 16],
        block: [u8; 16],
    },
    Cbc {
        key: [u8; 16],
        iv: [u8; 16],
        octets: Vec<u8>,
    },
    Ctr {
        key: [u8; 16],
        iv: [u8; 16],
        octets: Vec<u8>,
    },
    Mac {
        key: [u8; 16],
        first: Vec<u8>,
        second: Vec<u8>,
    },
    Expand {
        key: [u8; 16],
    },
}

// The words of a line that are still to be read, and where their octets go.
#[derive(Drop)]
struct Words<'a> {
    rest: SplitWhitespace<'a>,
    heap: Global,
}

impl Words<'_> {
    // The next word as octets.
    fn octets(&mut self, what: &'static str) -> Result<Vec<u8>, Fault> {
        let word = self.rest.next().ok_or(Fault::Missing(what))?;
        // Want of memory is the fault of a word that writes octets alone: any other is none, however long.
        written::read(self.heap, word).map_err(|error| match error {
            FromHexError::OutOfMemory if written::is_written(word) => Fault::Memory(AllocError),
            _ => Fault::NotHex(what),
        })
    }

    // The next word as sixteen octets.
    fn block(&mut self, what: &'static str) -> Result<[u8; 16], Fault> {
        let octets = self.octets(what)?;
        <[u8; 16]>::try_from(octets.as_slice()).map_err(|_| Fault::NotSixteen(what))
    }

    // The request of a name, with the words that it takes.
    fn request(&mut self, name: &str) -> Result<Request, Fault> {
        match name {
            "ecb" => Ok(Request::Ecb {
                key: self.block("KEY")?,
                block: self.block("BLOCK")?,
            }),
            "cbc" => Ok(Request::Cbc {
                key: self.block("KEY")?,
                iv: self.block("IV")?,
                octets: self.octets("OCTETS")?,
            }),
            "ctr" => Ok(Request::Ctr {
                key: self.block("KEY")?,
                iv: self.block("IV")?,
                octets: self.octets("OCTETS")?,
            }),
            "mac" => Ok(Request::Mac {
                key: self.block("KEY")?,
                first: self.octets("FIRST")?,
                second: self.octets("SECOND")?,
            }),
            "expand" => Ok(Request::Expand {
                key: self.block("KEY")?,
            }),
            _ => Err(Fault::Unknown),
        }
    }
}

// The request of a line.
pub fn read(heap: Global, line: &str) -> Result<Request, Fault> {
    let mut words = Words {
        rest: line.split_whitespace(),
        heap,
    };
    let name = words.rest.next().unwrap_or("");
    let request = words.request(name)?;
    if words.rest.next().is_some() {
        return Err(Fault::TooMany);
    }
    Ok(request)
}

impl Request {
    // The octets of the answer, by the calls of the banks and of AES themselves.
    pub fn answer(self, heap: Global) -> Result<Vec<u8>, Fault> {
        match self {
            Request::Ecb { key, block } => Ok(Vec::from_slice(heap, &encrypt_block(key, block))?),
            Request::Cbc { key, iv, octets } => cbc(heap, key, iv, octets.as_slice()),
            Request::Ctr {
                key,
                iv,
                mut octets,
            } => {
                let mut banks = delivered();
                banks.ciphers.run(
                    Mea1::NUMBER,
                    &Key::from(key),
                    &Iv::from(iv),
                    octets.as_mut_slice(),
                );
                Ok(octets)
            }
            Request::Mac { key, first, second } => {
                let mut banks = delivered();
                let tag = banks.tags.tag(
                    Mia1::NUMBER,
                    &Key::from(key),
                    first.as_slice(),
                    second.as_slice(),
                );
                Ok(Vec::from_slice(heap, &tag.to_octets())?)
            }
            Request::Expand { key } => expanded(heap, key),
        }
    }
}
