// Products by 2 and 3 in the field of 2^8 elements.
ghost use Rattle.std.specs.Prelude.{◌≡◌};
ghost use Rattle.aes.specs.Field.{times};

// 2 times an octet: shifted, and reduced by the modulus where a bit is carried out.
#[tactic(auto, using(crate::proofs::Products::double_is))]
pub(crate) fn double(octet: u8) -> u8
    ensures { result ≡ times 2 octet }
{
    (octet << 1) ^ ((octet >> 7) * 0x1b)
}

// 3 times an octet.
#[tactic(auto, using(crate::proofs::Products::triple_is))]
pub(crate) fn triple(octet: u8) -> u8
    ensures { result ≡ times 3 octet }
{
    double(octet) ^ octet
}
