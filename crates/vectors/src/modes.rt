// Modes of AES-128 that the banks have no use for.
use crate::fault::Fault;
use aes::cipher::{encrypt, expand};
use aes::keys::words;
use std::alloc::Global;

// Two blocks added.
fn xor(x: [u8; 16], y: [u8; 16]) -> [u8; 16] {
    let mut sum = x;
    for (octet, other) in sum.iter_mut().zip(y) {
        *octet ^= other;
    }
    sum
}

// CBC over whole blocks.
pub fn cbc(heap: Global, key: [u8; 16], iv: [u8; 16], octets: &[u8]) -> Result<Vec<u8>, Fault> {
    let keys = expand(key);
    let mut out = Vec::new(heap);
    let mut chain = iv;
    for chunk in octets.chunks(16) {
        let block = <[u8; 16]>::try_from(chunk).map_err(|_| Fault::NotWhole)?;
        chain = encrypt(&keys, xor(chain, block));
        out.extend_from_slice(&chain)?;
    }
    Ok(out)
}

// The forty-four words of an expanded key.
pub fn expanded(heap: Global, key: [u8; 16]) -> Result<Vec<u8>, Fault> {
    let mut out = Vec::new(heap);
    for word in words(&key) {
        out.extend_from_slice(&<[u8; 4]>::from(word))?;
    }
    Ok(out)
}
