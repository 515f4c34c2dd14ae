// How a component is protected.
ghost use Rattle.std.specs.Prelude.{◌≡◌};
ghost use Rattle.rules.specs.Modes.{mode_number, protects, mode_in_row, row_of};

use crate::component::ComponentKind;

// The protection modes of TS 33.200: none; integrity and authenticity; these and confidentiality.
#[derive(Clone, Copy, Debug, PartialEq, Eq, PartialOrd, Ord)]
pub enum ProtectionMode {
    NoProtection = 0,
    Integrity = 1,
    Confidentiality = 2,
}

impl ProtectionMode {
    // By name: it is printed as the mode's number, and `u8::from` would not say of what.
    pub fn number(self) -> u8
        ensures { result ≡ mode_number self }
    {
        self as u8
    }

    // Whether messages of this mode carry a stamp and a tag.
    pub fn protects(self) -> bool
        ensures { result ≡ protects self }
    {
        matches!(
            self,
            ProtectionMode::Integrity | ProtectionMode::Confidentiality
        )
    }
}

// The modes of one protection level, for each kind of component.
#[derive(Clone, Copy, Debug, PartialEq, Eq)]
pub struct LevelModes {
    pub invoke: ProtectionMode,
    pub result: ProtectionMode,
    pub error: ProtectionMode,
}

impl LevelModes {
    pub fn mode(self, kind: ComponentKind) -> ProtectionMode
        ensures { result ≡ mode_in_row kind self }
    {
        match kind {
            ComponentKind::Invoke => self.invoke,
            ComponentKind::ReturnResult => self.result,
            ComponentKind::ReturnError => self.error,
        }
    }
}

// The protection levels 1 to 6 of TS 33.200.
const LEVELS: [LevelModes; 6] = [
    LevelModes {
        invoke: ProtectionMode::Integrity,
        result: ProtectionMode::NoProtection, // level 1
        error: ProtectionMode::NoProtection,
    },
    LevelModes {
        invoke: ProtectionMode::Integrity,
        result: ProtectionMode::Integrity, // level 2
        error: ProtectionMode::NoProtection,
    },
    LevelModes {
        invoke: ProtectionMode::Integrity,
        result: ProtectionMode::Confidentiality, // level 3
        error: ProtectionMode::NoProtection,
    },
    LevelModes {
        invoke: ProtectionMode::Confidentiality,
        result: ProtectionMode::Integrity, // level 4
        error: ProtectionMode::NoProtection,
    },
    LevelModes {
        invoke: ProtectionMode::Confidentiality,
        result: ProtectionMode::Confidentiality, // level 5
        error: ProtectionMode::NoProtection,
    },
    LevelModes {
        invoke: ProtectionMode::Confidentiality,
        result: ProtectionMode::NoProtection, // level 6
        error: ProtectionMode::NoProtection,
    },
];

// The row of a level; none where there is no such level.
pub fn level_modes(level: u8) -> Option<LevelModes>
    ensures { result ≡ row_of level }
{
    let row = usize::from(level).checked_sub(1)?;
    LEVELS.get(row).copied()
}
