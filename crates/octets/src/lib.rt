// Numbers as octets, most significant octet first: the one place where the order of octets is decided.
#![tactic(auto, using(crate::proofs::Widths::number_read), unfolding(crate::specs::Numbers::number, crate::specs::Numbers::octets_of))]

ghost use Rattle.std.specs.Prelude.{◌≡◌, ℕ};
ghost use Rattle.octets.specs.Numbers.{octets_of, number, OctetsAndNumbers};

// Numbers that are written in N octets. Each width has its impl: u32 to u128 share no trait that has `to_be_bytes`.
pub trait Octets<const N: usize>: Copy {
    // The number that a value is.
    ghost value: { Self → ℕ };

    // Its last N octets: all of it, where it is below 256^N.
    fn to_octets(self) -> [u8; N]
        ensures { result ≡ octets_of N (value self) };

    // The number that N octets are. Each impl repeats the clause: the check does not hand down one on an array of N.
    fn from_octets(octets: [u8; N]) -> Self
        ensures { value result ≡ number octets.entry };
}

impl Octets<4> for u32 {
    ghost value = { λ n. n };

    fn to_octets(self) -> [u8; 4] {
        u32::to_be_bytes(self)
    }

    fn from_octets(octets: [u8; 4]) -> u32
        ensures { result ≡ number octets }
    {
        u32::from_be_bytes(octets)
    }
}

// Six octets are a number of 48 bits.
impl Octets<6> for u64 {
    ghost value = { λ n. n };

    fn to_octets(self) -> [u8; 6] {
        let [_, _, a, b, c, d, e, f] = u64::to_be_bytes(self);
        [a, b, c, d, e, f]
    }

    fn from_octets(octets: [u8; 6]) -> u64
        ensures { result ≡ number octets }
    {
        let [a, b, c, d, e, f] = octets;
        u64::from_be_bytes([0, 0, a, b, c, d, e, f])
    }
}

impl Octets<8> for u64 {
    ghost value = { λ n. n };

    fn to_octets(self) -> [u8; 8] {
        u64::to_be_bytes(self)
    }

    fn from_octets(octets: [u8; 8]) -> u64
        ensures { result ≡ number octets }
    {
        u64::from_be_bytes(octets)
    }
}

impl Octets<16> for u128 {
    ghost value = { λ n. n };

    fn to_octets(self) -> [u8; 16] {
        u128::to_be_bytes(self)
    }

    fn from_octets(octets: [u8; 16]) -> u128
        ensures { result ≡ number octets }
    {
        u128::from_be_bytes(octets)
    }
}

// The theorem: octets and numbers of one width stand for each other.
pub fn octets_and_numbers()
    ensures { OctetsAndNumbers }
{}
