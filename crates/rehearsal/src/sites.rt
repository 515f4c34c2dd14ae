// The two stations of a log, and running it.
ghost use Rattle.std.specs.Prelude.{◌≡◌, length, IfOk};
ghost use Rattle.banks.specs.Banks.{MeanTheSame};
ghost use Rattle.rehearsal.specs.Runs.{sites_of, turns, Turns, Runs};

use crate::log::{Answer, Line, Side};
use crate::site::Site;
use banks::Banks;
use banks::cipher::CipherBank;
use banks::tag::TagBank;
use std::alloc::{AllocError, Global};

// Both stations of a log.
#[derive(Drop)]
pub(crate) struct Sites<'a, 'b> {
    pub(crate) a: Site<'a>,
    pub(crate) b: Site<'b>,
}

impl Sites<'_, '_> {
    // Makes the call of a line at its station.
    fn turn<C: CipherBank, T: TagBank>(
        &mut self,
        heap: Global,
        banks: &mut Banks<C, T>,
        line: &Line<'_>,
    ) -> Result<Answer, AllocError>
        ensures banks { MeanTheSame C.CipherBank.means T.TagBank.means banks.old banks.new }
        ensures turns { IfOk result (λ a. Turns (C.CipherBank.means banks.old.ciphers) (T.TagBank.means banks.old.tags) (record { line = line.now; answer = a }) (sites_of self.old) (sites_of self.new)) }
    {
        match line.side {
            Side::A => self.a.play(heap, banks, &line.call),
            Side::B => self.b.play(heap, banks, &line.call),
        }
    }

    // Makes the calls of a log from top to bottom; one answer to a line.
    pub(crate) fn run<C: CipherBank, T: TagBank>(
        &mut self,
        heap: Global,
        banks: &mut Banks<C, T>,
        log: &[Line<'_>],
    ) -> Result<Vec<Answer>, AllocError>
        ensures answers { IfOk result (λ v. length v.items ≡ length log.now) }
        ensures runs { IfOk result (λ v. Runs (C.CipherBank.means banks.old.ciphers) (T.TagBank.means banks.old.tags) (turns log.now v.items) (sites_of self.old) (sites_of self.new)) }
    {
        let mut answers = Vec::new(heap);
        for line in log {
            let answer = self.turn(heap, banks, line)?;
            answers.push(answer)?;
        }
        Ok(answers)
    }
}
