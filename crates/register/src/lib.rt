// A register of keyed records, in places that its owner lends.
#![tactic(auto)]

ghost use Rattle.std.specs.Prelude.{◌≡◌, ◌≤◌, min, true, length, is_some, is_ok, None, MatchOption, nat_lt};
ghost use Rattle.register.specs.Places.{Apart, lookup, Found, PlaceOf, held_count, count_not_past, Empty, Put, Removed, Dropped, PutAt};

mod places;
mod record;

use places::{clear, count_held, count_not_past, drop_past, free_place, front, place_of};
pub use record::{Ending, Keyed};
use std::error::Error;
use std::fmt;

// Records of one kind, each in a place of its own, no key twice.
// What it promises of keys holds wherever a record lies.
#[derive(Drop)]
pub struct Register<'a, R: Keyed> {
    places: &'a mut [Option<R>],
    ghost apart: { Apart R.Keyed.key R.Keyed.same places.now },
}

// No place is free for a record of a new key.
#[derive(Clone, Copy, Debug, PartialEq, Eq)]
pub struct Full;

impl fmt::Display for Full {
    fn fmt<W: fmt::Write>(&self, f: &mut fmt::Formatter<W>) -> fmt::Result {
        f.write_str("no place is free")
    }
}

impl Error for Full {}

impl<'a, R: Keyed> Register<'a, R> {
    // An empty register in the places lent, of which it uses the kind's bound at most.
    // Those beyond stay as they are: `clear` promises it, and `front` lends the register no hold of them.
    #[tactic(auto, using(crate::proofs::Lookups::free_apart, crate::proofs::Fronts::front_free))]
    pub fn new(places: &'a mut [Option<R>]) -> Register<'a, R>
        ensures empty { Empty R.Keyed.key R.Keyed.same result.places.now }
        ensures capacity { length result.places.now ≡ min (length places.old) R.Keyed.MOST }
    {
        clear(places);
        Register {
            places: front(places),
        }
    }

    // The places used, for who looks at all records.
    pub fn places(&self) -> &[Option<R>]
        ensures { result.now ≡ self.now.places.now }
    {
        &self.places[..]
    }

    // How many records it can hold.
    pub fn capacity(&self) -> usize
        ensures { result ≡ length self.now.places.now }
    {
        self.places.len()
    }

    // How many records it holds.
    pub fn count(&self) -> usize
        ensures held { result ≡ held_count self.now.places.now }
        ensures within { result ≤ length self.now.places.now }
    {
        count_held(self.places)
    }

    // The record under a key, or none.
    pub fn find(&self, key: R::Key) -> Option<R>
        ensures value { result ≡ lookup R.Keyed.key R.Keyed.same key self.now.places.now }
        ensures found { Found R.Keyed.key R.Keyed.same key self.now.places.now result }
    {
        self.place(key).and_then(|i| self.places[i])
    }

    // Holds the record: in place of the one under the same key, or else in a free place.
    #[tactic(auto, using(crate::proofs::Changes::apart_with, crate::proofs::Lookups::equivalence, crate::proofs::Positions::place_at))]
    pub fn put(&mut self, new: R) -> Result<(), Full>
        ensures { Put R.Keyed.key R.Keyed.same new self.old.places.now self.new.places.now (is_ok result) }
    {
        let i = self.place_for(new.key_of()).ok_or(Full)?;
        self.places[i] = Some(new);
        Ok(())
    }

    // Drops the record under a key, and answers it.
    pub fn remove(&mut self, key: R::Key) -> Option<R>
        ensures { Removed R.Keyed.key R.Keyed.same key self.old.places.now self.new.places.now result }
    {
        let i = self.place(key)?;
        let places = &mut *self.places;
        places[i].take()
    }

    // The place of the record under a key.
    #[tactic(auto, using(crate::proofs::Positions::place_found))]
    fn place(&self, key: R::Key) -> Option<usize>
        ensures { MatchOption result (lookup R.Keyed.key R.Keyed.same key self.now.places.now ≡ None) (λ i. PlaceOf R.Keyed.key R.Keyed.same key self.now.places.now i × (is_some (lookup R.Keyed.key R.Keyed.same key self.now.places.now) ≡ true)) }
    {
        place_of(self.places, key)
    }

    // The place to write a record of a key at: the one that holds the key, or else a free one.
    fn place_for(&self, key: R::Key) -> Option<usize>
        ensures { MatchOption result ((lookup R.Keyed.key R.Keyed.same key self.now.places.now ≡ None) × (held_count self.now.places.now ≡ length self.now.places.now)) (λ i. PlaceOf R.Keyed.key R.Keyed.same key self.now.places.now i) }
    {
        self.place(key).or_else(|| free_place(self.places))
    }
}

impl<'a, R: Ending> Register<'a, R> {
    // How many records it holds whose last tick is not before `tick`.
    pub fn count_not_past(&self, tick: u64) -> usize
        ensures { result ≡ count_not_past R.Ending.last tick self.now.places.now }
    {
        count_not_past(self.places, tick)
    }

    // Whether a record of a new key finds a place once what is past at `tick` is dropped.
    pub fn has_room_at(&self, tick: u64) -> bool
        ensures { result ≡ nat_lt (count_not_past R.Ending.last tick self.now.places.now) (length self.now.places.now) }
    {
        self.count_not_past(tick) < self.capacity()
    }

    // Drops every record whose last tick is before `tick`.
    pub fn drop_past(&mut self, tick: u64)
        ensures { Dropped R.Keyed.key R.Keyed.same R.Ending.last tick self.old.places.now self.new.places.now }
    {
        drop_past(self.places, tick);
    }

    // Drops every record whose last tick is before `tick`, and then holds the record as `put` does.
    pub fn put_at(&mut self, new: R, tick: u64) -> Result<(), Full>
        ensures { PutAt R.Keyed.key R.Keyed.same R.Ending.last new tick self.old.places.now self.new.places.now (is_ok result) }
    {
        self.drop_past(tick);
        self.put(new)
    }
}

#[cfg(test)]
mod tests;
