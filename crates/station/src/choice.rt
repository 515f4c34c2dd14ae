// Which association a component is sent under.
ghost use Rattle.std.specs.Prelude.{◌≡◌, nat_le};
ghost use Rattle.station.specs.Choice.{candidate, preferred, weighed, chosen_for, Chosen, Anywhere};

use crate::records::SecurityAssociation;
use crate::registers::Registers;

// The smaller comes first: one before its soft expiry; then the earlier hard expiry; then the smaller SPI.
#[derive(Clone, Copy, PartialEq, Eq, PartialOrd, Ord)]
struct Rank {
    past_soft: bool,
    hard: u64,
    spi: u32,
}

// What an association is wanted for: at a reading, sending from the own network to a network.
#[derive(Clone, Copy)]
struct Errand {
    reading: u64,
    own: u32,
    network: u32,
}

impl Errand {
    // Whether it sends from the own network to the network, and is live.
    fn suits(self, a: &SecurityAssociation) -> bool
        ensures { result ≡ candidate self.reading self.own self.network a.now }
    {
        (a.sender == self.own) & ((a.destination == self.network) & a.is_live(self.reading))
    }

    fn rank(self, a: &SecurityAssociation) -> Rank
        ensures { result ≡ record { past_soft = nat_le a.now.soft self.reading; hard = a.now.hard; spi = a.now.spi } }
    {
        Rank {
            past_soft: a.soft <= self.reading,
            hard: a.hard,
            spi: a.spi,
        }
    }

    fn prefers(self, a: &SecurityAssociation, b: &SecurityAssociation) -> bool
        ensures { result ≡ preferred self.reading a.now b.now }
    {
        self.rank(a) < self.rank(b)
    }

    // The best so far, once one more place was looked at.
    fn weigh(
        self,
        best: Option<SecurityAssociation>,
        place: Option<SecurityAssociation>,
    ) -> Option<SecurityAssociation>
        ensures { result ≡ weighed (candidate self.reading self.own self.network) (preferred self.reading) best place }
    {
        let Some(a) = place else {
            return best;
        };
        if !self.suits(&a) {
            return best;
        }
        match best {
            Some(b) if !self.prefers(&a, &b) => Some(b),
            _ => Some(a),
        }
    }

    // The best of all places.
    fn best_of(self, places: &[Option<SecurityAssociation>]) -> Option<SecurityAssociation>
        ensures { result ≡ chosen_for self.reading self.own self.network places.now }
    {
        let mut best = None;
        for place in places {
            best = self.weigh(best, *place);
        }
        best
    }
}

// The association for sending to a network at a reading, or none where no candidate is held.
pub fn choose(
    registers: &Registers<'_>,
    reading: u64,
    own: u32,
    network: u32,
) -> Option<SecurityAssociation>
    ensures value { result ≡ chosen_for reading own network registers.now.associations.places.now }
    ensures law { Chosen reading own network registers.now.associations.places.now result }
    ensures anywhere { Anywhere reading own network registers.now.associations.places.now result }
{
    let errand = Errand {
        reading,
        own,
        network,
    };
    errand.best_of(registers.associations.places())
}
