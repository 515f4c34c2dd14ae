// What a register asks of a kind of record.
ghost use Rattle.std.specs.Prelude.{◌≡◌, ℕ, Bool, true};

// A record with a key. The kind says which keys are the same: an equivalence, and same keys need not be equal.
pub trait Keyed: Copy {
    type Key: Copy;

    ghost key: { Self → Self.Key };

    ghost same: { Self.Key → Self.Key → Bool };

    // The most places that a register of this kind uses.
    ghost MOST: { ℕ };

    const MOST: usize;

    fn key_of(&self) -> Self::Key
        ensures { result ≡ key self.now };

    fn has_key(&self, k: Self::Key) -> bool
        ensures { result ≡ same k (key self.now) };

    ghost reflexive: { (k : Self.Key) → same k k ≡ true };

    ghost symmetric: { (j k : Self.Key) → same j k ≡ true → same k j ≡ true };

    ghost transitive: { (i j k : Self.Key) → same i j ≡ true → same j k ≡ true → same i k ≡ true };
}

// A keyed record that ends: `last` is the last tick at which it counts.
pub trait Ending: Keyed {
    ghost last: { Self → ℕ };

    fn last_tick(&self) -> u64
        ensures { result ≡ last self.now };
}
