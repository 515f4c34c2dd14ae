// Reading and writing a row of places.
ghost use Rattle.std.specs.Prelude.{◌≡◌, ℕ, ◌<◌, ◌≤◌, min, map, length, take, drop, None, MatchOption, count_by, is_some, is_none, position, slice_index_or};
ghost use Rattle.register.specs.Places.{has_key, held_count, count_not_past, not_past};

use crate::record::{Ending, Keyed};

// Whether a place holds a record of the key.
fn has_key<R: Keyed>(place: &Option<R>, key: R::Key) -> bool
    ensures { result ≡ has_key R.Keyed.key R.Keyed.same key place.now }
{
    place.is_some_and(|record| record.has_key(key))
}

// The first place with a record of the key.
pub(crate) fn place_of<R: Keyed>(places: &[Option<R>], key: R::Key) -> Option<usize>
    ensures { result ≡ position (has_key R.Keyed.key R.Keyed.same key) places.now }
{
    places.iter().position(|place| has_key(place, key))
}

// The first place without a record.
pub(crate) fn free_place<R: Copy>(places: &[Option<R>]) -> Option<usize>
    ensures { result ≡ position is_none places.now }
{
    places.iter().position(|place| place.is_none())
}

// How many places hold a record.
pub(crate) fn count_held<R: Copy>(places: &[Option<R>]) -> usize
    ensures { result ≡ held_count places.now }
{
    places.iter().filter(|place| place.is_some()).count()
}

// A place as it is, or empty where its record has its last tick before `tick`.
fn not_past<R: Ending>(place: Option<R>, tick: u64) -> Option<R>
    ensures { result ≡ not_past R.Ending.last tick place }
{
    place.filter(|record| record.last_tick() >= tick)
}

// How many places hold a record whose last tick is not before `tick`.
pub(crate) fn count_not_past<R: Ending>(places: &[Option<R>], tick: u64) -> usize
    ensures { result ≡ count_not_past R.Ending.last tick places.now }
{
    places
        .iter()
        .filter(|place| not_past(**place, tick).is_some())
        .count()
}

// Empties each place whose record has its last tick before `tick`.
pub(crate) fn drop_past<R: Ending>(places: &mut [Option<R>], tick: u64)
    ensures { places.new ≡ map (not_past R.Ending.last tick) places.old }
{
    for place in places.iter_mut() {
        *place = not_past(*place, tick);
    }
}

// How many of the places lent a register uses: the kind's bound at most.
fn used<R: Keyed>(lent: usize) -> usize
    ensures { result ≡ min lent R.Keyed.MOST }
{
    lent.min(R::MOST)
}

// Empties the places that a register uses, and leaves those beyond as they are.
pub(crate) fn clear<R: Keyed>(places: &mut [Option<R>])
    ensures emptied { (i : ℕ) → i < R.Keyed.MOST → slice_index_or places.new i None ≡ None }
    ensures beyond { drop R.Keyed.MOST places.new ≡ drop R.Keyed.MOST places.old }
{
    let end = used::<R>(places.len());
    places[..end].fill(None);
}

// The places that a register uses: it has no hold of those beyond.
pub(crate) fn front<R: Keyed>(places: &mut [Option<R>]) -> &mut [Option<R>]
    ensures { result.now ≡ take R.Keyed.MOST places.old }
{
    let end = used::<R>(places.len());
    &mut places[..end]
}
