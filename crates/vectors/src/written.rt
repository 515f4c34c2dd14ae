// Octets as pairs of hex digits, `-` for none, by the kit's crate: this program sees AES and the banks, and not the command language.
ghost use Rattle.std.specs.Prelude.{◌≡◌, ◌≢◌, ◌⊎◌, ◌||◌, [], IfOk, IfErr, codes, string_bytes};
ghost use Rattle.std.specs.Char.{is_ascii_hexdigit};
ghost use Rattle.std.specs.List.{list_all};
ghost use Rattle.std.specs.Str.{bytes_eq};
ghost use Rattle.hex.specs.Hex.{decode_of};
ghost use Rattle.hex.specs.declared.error.FromHexError.TheVariants.{OutOfMemory};
ghost use Rattle.vectors.specs.Hex.{hex_of};

use hex::FromHexError;
use std::alloc::{AllocError, Global};

// The octets that a word writes.
pub fn read(heap: Global, word: &str) -> Result<Vec<u8>, FromHexError>
    ensures dash { word.now ≡ codes "-" → IfOk result (λ octets. octets.items ≡ []) }
    ensures ok { word.now ≢ codes "-" → IfOk result (λ octets. decode_of word.now ≡ Ok octets.items) }
    ensures err { IfErr result (λ e. (e ≡ OutOfMemory) ⊎ (decode_of word.now ≡ Err e)) }
{
    if word == "-" {
        return Ok(Vec::new(heap));
    }
    hex::decode(heap, word)
}

// Whether octets are hex digits alone.
fn digits_alone(octets: &[u8]) -> bool
    ensures { result ≡ list_all is_ascii_hexdigit octets.now }
{
    octets.iter().all(|octet| octet.is_ascii_hexdigit())
}

// Whether a word is `-` or hex digits alone: looking asks for no memory.
pub fn is_written(word: &str) -> bool
    ensures { result ≡ (bytes_eq word.now (codes "-") || list_all is_ascii_hexdigit word.now) }
{
    word == "-" || digits_alone(word.as_bytes())
}

// Octets as hex digits.
pub fn write(heap: Global, octets: &[u8]) -> Result<String, AllocError>
    ensures { IfOk result (λ text. string_bytes text ≡ hex_of octets.now) }
{
    if octets.is_empty() {
        return String::from_str(heap, "-");
    }
    hex::encode(heap, octets)
}
