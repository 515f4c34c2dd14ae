// The octets that the answers gave, kept for `@N`.
ghost use Rattle.std.specs.Prelude.{◌≡◌, [], ◌∷◌, ◌++◌, Some, None, vec_items, vec_len};
ghost use Rattle.std.specs.Option.{option_map};
ghost use Rattle.desk.specs.Answers.{answered, Opened, Given};

use std::alloc::{AllocError, Global};

/// The octets of each answer, in order; none for an answer that gave no octets.
#[derive(Drop)]
pub struct Answers {
    given: Vec<Option<Vec<u8>>>,
}

impl Answers {
    /// Nothing is answered yet.
    pub fn new(heap: Global) -> Answers
        ensures { result.given.items ≡ [] }
    {
        Answers {
            given: Vec::new(heap),
        }
    }

    /// How many answers there are.
    pub fn count(&self) -> usize
        ensures { result ≡ vec_len self.now.given }
    {
        self.given.len()
    }

    /// Counts one answer more, which gave no octets yet.
    pub fn open(&mut self) -> Result<(), AllocError>
        ensures { Opened self.old.given.items self.new.given.items result }
    {
        self.given.push(None)?;
        Ok(())
    }

    /// Keeps the octets that the last answer gave.
    pub fn give(&mut self, octets: Vec<u8>)
        ensures { Given octets self.old.given.items self.new.given.items }
    {
        if let Some(last) = self.given.last_mut() {
            *last = Some(octets);
        }
    }

    /// The octets that an answer gave; the first one is answer 1.
    pub fn octets(&self, number: u64) -> Option<&[u8]>
        ensures { option_map (λ s. s.now) result ≡ option_map vec_items (answered self.now.given.items number) }
    {
        let place = number.checked_sub(1)? as usize;
        self.given.get(place)?.as_deref()
    }
}
