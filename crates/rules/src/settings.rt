// What a station is set to when it is made.
ghost use Rattle.std.specs.Prelude.{◌≡◌, ◌<◌, ◌≤◌, true, length};
ghost use Rattle.rules.specs.Profiles.{levels_known, lines_apart};
ghost use Rattle.rules.specs.Listed.{kinds_known};

use crate::component::ComponentId;
use crate::profile::ProfileLine;

// What a station is to be set to, as an operator writes it: no bound is looked at yet.
#[derive(Drop)]
pub struct Draft {
    pub own: u32,
    pub ne_id: u64,
    pub back: u64,
    pub ahead: u64,
    pub fallback: bool,
    pub listed: Vec<ComponentId>,
    pub profile: Vec<ProfileLine>,
}

// Settings that hold their bounds: made only by `Settings::new` (module `checked`), so no later call has to ask.
#[derive(Drop)]
pub struct Settings {
    own: u32,
    ne_id: u64,
    back: u64,
    ahead: u64,
    fallback: bool,
    listed: Vec<ComponentId>,
    profile: Vec<ProfileLine>,
    ghost own_fits: { own < 16777216 },
    ghost ne_id_fits: { ne_id < 281474976710656 },
    ghost back_near: { back ≤ 6000 },
    ghost ahead_near: { ahead ≤ 600 },
    ghost listed_few: { length listed.items ≤ 64 },
    ghost listed_known: { kinds_known listed.items ≡ true },
    ghost profile_few: { length profile.items ≤ 64 },
    ghost profile_known: { levels_known profile.items ≡ true },
    ghost profile_apart: { lines_apart profile.items ≡ true },
}

pub mod checked;
