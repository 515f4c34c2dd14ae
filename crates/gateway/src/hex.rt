// Octets as they are answered.
use std::fmt;

/// Octets in pairs of hexadecimal digits; `-` for none.
#[derive(Drop)]
pub struct Hex<'a> {
    pub octets: &'a [u8],
}

impl fmt::Display for Hex<'_> {
    fn fmt<W: fmt::Write>(&self, f: &mut fmt::Formatter<W>) -> fmt::Result {
        if self.octets.is_empty() {
            return write!(f, "-");
        }
        for octet in self.octets {
            let octet = *octet;
            write!(f, "{octet:02x}")?;
        }
        Ok(())
    }
}
