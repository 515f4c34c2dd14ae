// The banks that are delivered.
ghost use Rattle.std.specs.Prelude.{◌≡◌};
ghost use Rattle.banks.specs.Delivered.{delivered_ciphers, delivered_tags};

use crate::Banks;
use crate::cipher::{CipherBank, Mea1, NullCipher};
use crate::pair::Pair;
use crate::tag::{Mia1, TagBank};

// The ciphers 0 and 1, and the tag 1.
pub type Delivered = Banks<Pair<NullCipher, Mea1>, Mia1>;

// Under each number they mean what is listed, and nothing under any other.
#[tactic(auto, using(crate::proofs::Deliveries::ciphers_delivered, crate::proofs::Deliveries::tags_delivered))]
pub fn delivered() -> Delivered
    ensures ciphers { ⟦<Pair<NullCipher, Mea1> as CipherBank>⟧.means result.ciphers ≡ delivered_ciphers }
    ensures tags { ⟦<Mia1 as TagBank>⟧.means result.tags ≡ delivered_tags }
{
    Banks {
        ciphers: Pair(NullCipher, Mea1),
        tags: Mia1,
    }
}
