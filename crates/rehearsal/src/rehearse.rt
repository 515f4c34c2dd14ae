// Rehearsing a log on two new stations.
ghost use Rattle.std.specs.Prelude.{◌≡◌, IfOk};
ghost use Rattle.banks.specs.Banks.{MeanTheSame};
ghost use Rattle.rehearsal.specs.Rehearsed.{by_side, Rehearsed};

use crate::log::{Answer, Line};
use crate::site::Site;
use crate::sites::Sites;
use banks::Banks;
use banks::cipher::CipherBank;
use banks::tag::TagBank;
use memory::Memory;
pub use memory::Places;
use rules::settings::Settings;
use station::station::Station;
use std::alloc::{AllocError, Global};

// What a station of a rehearsal is made with.
#[derive(Drop)]
pub struct Setup {
    pub settings: Settings,
    pub places: Places,
}

// Runs a log on a new A and a new B over the same banks: one answer to a line.
// Whatever the log, the settings, the places and the banks, the laws over whole logs hold.
pub fn rehearse<C: CipherBank, T: TagBank>(
    heap: Global,
    a: Setup,
    b: Setup,
    banks: &mut Banks<C, T>,
    log: &[Line<'_>],
) -> Result<Vec<Answer>, AllocError>
    ensures rehearsed { IfOk result (λ v. Rehearsed (C.CipherBank.means banks.old.ciphers) (T.TagBank.means banks.old.tags) (by_side a.settings b.settings) (by_side a.places b.places) log.now v.items) }
{
    let mut memory_a = Memory::new(heap, a.places)?;
    let mut memory_b = Memory::new(heap, b.places)?;
    let mut sites = Sites {
        a: Site {
            station: Station::new(a.settings),
            registers: memory_a.registers(),
        },
        b: Site {
            station: Station::new(b.settings),
            registers: memory_b.registers(),
        },
    };
    sites.run(heap, banks, log)
}
