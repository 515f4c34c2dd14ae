// Protection profiles: which level a PPI gives to an operation.
ghost use Rattle.std.specs.Prelude.{◌≡◌, ◌&&◌, ◌==◌};
ghost use Rattle.rules.specs.Profiles.{level_in, row_in, levels_known, lines_apart};

use crate::protection::{LevelModes, level_modes};

// One line of the protection profiles: under this PPI, operations of this code have this level.
// The level is kept as it was written: settings with one that does not exist are refused.
#[derive(Clone, Copy, Debug, PartialEq, Eq)]
pub struct ProfileLine {
    pub ppi: u16,
    pub code: u8,
    pub level: u8,
}

// The level of the first line with the PPI and the code: two of its three fields.
fn level_in(lines: &[ProfileLine], ppi: u16, code: u8) -> Option<u8>
    ensures { result ≡ level_in ppi code lines.now }
{
    lines
        .iter()
        .find(|line| (line.ppi == ppi) & (line.code == code))
        .map(|line| line.level)
}

// The modes that the lines give to an operation under a PPI; none where no line has them.
pub(crate) fn row_in(lines: &[ProfileLine], ppi: u16, code: u8) -> Option<LevelModes>
    ensures { result ≡ row_in ppi code lines.now }
{
    level_in(lines, ppi, code).and_then(level_modes)
}

// Whether each line has a level that there is.
pub(crate) fn levels_known(lines: &[ProfileLine]) -> bool
    ensures { result ≡ levels_known lines.now }
{
    lines.iter().all(|line| level_modes(line.level).is_some())
}

// Whether no two lines share PPI and code.
// A loop: as `enumerate().all(..)` its proof did not close, since the definition goes down the lines.
pub(crate) fn lines_apart(lines: &[ProfileLine]) -> bool
    ensures { result ≡ lines_apart lines.now }
{
    let mut rest = lines;
    while let [line, later @ ..] = rest {
        if level_in(later, line.ppi, line.code).is_some() {
            return false;
        }
        rest = later;
    }
    true
}
