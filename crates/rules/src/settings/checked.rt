// Making settings, and reading them.
ghost use Rattle.std.specs.Prelude.{◌≡◌, ◌<◌, ◌≤◌, cond, None, Some, IfOk};
ghost use Rattle.rules.specs.declared.refusal.Refusal.TheVariants.{WrongSetting};
ghost use Rattle.rules.specs.Checks.{first, refusal_of};
ghost use Rattle.rules.specs.Listed.{listed_in};
ghost use Rattle.rules.specs.Profiles.{mode_in};
ghost use Rattle.rules.specs.Settings.{setting_checks};

use crate::bounds::{MOST_AHEAD, MOST_BACK, MOST_LINES, MOST_LISTED, NE_IDS, NETWORKS};
use crate::component::ComponentId;
use crate::listed::{kinds_known, lists};
use crate::profile::{ProfileLine, levels_known, lines_apart, row_in};
use crate::protection::ProtectionMode;
use crate::refusal::{Refusal, Setting};
use crate::settings::{Draft, Settings};
use crate::window::Window;

impl Settings {
    // The settings, if each holds its bound; or the first, in their order, that does not.
    pub fn new(draft: Draft) -> Result<Settings, Refusal>
        ensures checked { refusal_of result ≡ first (setting_checks draft) }
        ensures holds { IfOk result (λ s. (s.own ≡ draft.own) × (s.ne_id ≡ draft.ne_id) × (s.back ≡ draft.back) × (s.ahead ≡ draft.ahead) × (s.fallback ≡ draft.fallback) × (s.listed ≡ draft.listed) × (s.profile ≡ draft.profile)) }
    {
        let Draft {
            own,
            ne_id,
            back,
            ahead,
            fallback,
            listed,
            profile,
        } = draft;
        check(own < NETWORKS, Setting::OwnNetwork)?;
        check(ne_id < NE_IDS, Setting::NeId)?;
        check(back <= MOST_BACK, Setting::Back)?;
        check(ahead <= MOST_AHEAD, Setting::Ahead)?;
        check(
            (listed.len() <= MOST_LISTED) & kinds_known(&listed),
            Setting::ProtectedList,
        )?;
        check(
            (profile.len() <= MOST_LINES) & levels_known(&profile) & lines_apart(&profile),
            Setting::ProfileLines,
        )?;
        Ok(Settings {
            own,
            ne_id,
            back,
            ahead,
            fallback,
            listed,
            profile,
        })
    }

    // The station's own network.
    pub fn own(&self) -> u32
        ensures is { result ≡ self.now.own }
        ensures fits { result < 16777216 }
    {
        self.own
    }

    pub fn ne_id(&self) -> u64
        ensures is { result ≡ self.now.ne_id }
        ensures fits { result < 281474976710656 }
    {
        self.ne_id
    }

    // The ticks around a reading whose stamps are fresh.
    pub fn window(&self) -> Window
        ensures is { result ≡ record { back = self.now.back; ahead = self.now.ahead } }
        ensures near { (result.back ≤ 6000) × (result.ahead ≤ 600) }
    {
        Window {
            back: self.back,
            ahead: self.ahead,
        }
    }

    // Whether listed components may come unprotected.
    pub fn fallback(&self) -> bool
        ensures { result ≡ self.now.fallback }
    {
        self.fallback
    }

    // Whether the component is on the protected list.
    pub fn lists(&self, id: ComponentId) -> bool
        ensures { result ≡ listed_in id self.now.listed.items }
    {
        lists(&self.listed, id)
    }

    // The protection mode of a component under a PPI: mode 0 where no profile line has them, and for an error.
    pub fn mode(&self, ppi: u16, id: ComponentId) -> ProtectionMode
        ensures { result ≡ mode_in self.now.profile.items ppi id }
    {
        id.known_kind()
            .zip(row_in(&self.profile, ppi, id.code))
            .map_or(ProtectionMode::NoProtection, |(kind, row)| row.mode(kind))
    }
}

// Refuses a setting that does not hold its bound.
fn check(holds: bool, setting: Setting) -> Result<(), Refusal>
    ensures { refusal_of result ≡ cond holds None (Some (WrongSetting setting)) }
{
    if holds {
        Ok(())
    } else {
        Err(Refusal::WrongSetting { setting })
    }
}
