// Stamps, and the window in which one is fresh.
ghost use Rattle.std.specs.Prelude.{◌≡◌, ◌%◌, ◌<◌, ◌≤◌, Decides};
ghost use Rattle.rules.specs.Window.{age as age_of, lead as lead_of, in_window, last_tick, SomeTickNear};

// The stamp (TVP) that is made at a reading: the reading modulo 2^32.
pub fn stamp_at(reading: u64) -> u32
    ensures { result ≡ reading % 4294967296 }
{
    (reading % 4_294_967_296) as u32
}

// How many ticks ago the stamp was made, modulo 2^32.
pub fn age(reading: u64, stamp: u32) -> u32
    ensures { result ≡ age_of reading stamp }
{
    stamp_at(reading).wrapping_sub(stamp)
}

// In how many ticks the stamp will be made, modulo 2^32.
pub fn lead(reading: u64, stamp: u32) -> u32
    ensures { result ≡ lead_of reading stamp }
{
    stamp.wrapping_sub(stamp_at(reading))
}

// The ticks around a reading whose stamps are fresh: so many back, so many ahead.
#[derive(Clone, Copy, Debug, PartialEq, Eq)]
pub struct Window {
    pub back: u64,
    pub ahead: u64,
}

impl Window {
    // Whether the stamp is fresh at the reading: whether some tick of the window has it, across the roll-over too.
    #[tactic(auto, using(crate::proofs::Ticks::window_decides))]
    pub fn contains(self, reading: u64, stamp: u32) -> bool
        ensures test { result ≡ in_window self.back self.ahead reading stamp }
        ensures ticks { Decides result (SomeTickNear self.back self.ahead reading stamp) }
    {
        (u64::from(age(reading, stamp)) <= self.back)
            | (u64::from(lead(reading, stamp)) <= self.ahead)
    }

    // The last tick at which a stamp that is fresh at the reading is still fresh.
    // The sum is taken before the difference: a reading may be smaller than an age.
    pub fn last_tick(self, reading: u64, stamp: u32) -> u64
        ensures { reading < 281474976710656 → self.back ≤ 6000 → result ≡ last_tick self.back reading stamp }
    {
        let age = u64::from(age(reading, stamp));
        if age <= self.back {
            return reading.saturating_add(self.back).saturating_sub(age);
        }
        reading
            .saturating_add(u64::from(lead(reading, stamp)))
            .saturating_add(self.back)
    }
}
