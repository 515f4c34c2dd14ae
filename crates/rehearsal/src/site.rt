// A station of a log with its registers, and what becomes of the calls at it.
ghost use Rattle.std.specs.Prelude.{◌≡◌, IfOk};
ghost use Rattle.banks.specs.Banks.{MeanTheSame};
ghost use Rattle.station.specs.States.{contents_of};
ghost use Rattle.rehearsal.specs.Steps.{post_of, kept_answer, ShowsSending, ShowsSent, ShowsHanded, InstallStep, ProtectStep, ReceiveStep, PlainStep, Steps};

use crate::log::{Answer, Call};
use banks::Banks;
use banks::cipher::CipherBank;
use banks::tag::TagBank;
use rules::component::ComponentId;
use rules::refusal::Refusal;
use station::protect::Sending;
use station::receive::Handed;
use station::records::SecurityAssociation;
use station::registers::Registers;
use station::slip::{Answer as Received, close};
use station::station::Station;
use std::alloc::{AllocError, Global};

// A station, and the registers that are lent to its calls.
#[derive(Drop)]
pub(crate) struct Site<'r> {
    pub(crate) station: Station,
    pub(crate) registers: Registers<'r>,
}

// The answers, by name and not by `From`: those of protect, receive and plain take an output or a report beside the outcome.
// The answer of admit, install and revoke.
fn kept(outcome: Result<(), Refusal>) -> Answer
    ensures { result ≡ kept_answer outcome }
{
    match outcome {
        Ok(()) => Answer::Done,
        Err(refusal) => Answer::Refused { refusal, report: 0 },
    }
}

// The answer of protect: the message is the front of the output.
fn sending_answer(outcome: Result<Sending, Refusal>, output: Vec<u8>) -> Answer
    ensures { ShowsSending outcome output.items result }
{
    match outcome {
        Ok(sending) => sent_answer(sending, output),
        Err(refusal) => Answer::Refused { refusal, report: 0 },
    }
}

fn sent_answer(sending: Sending, output: Vec<u8>) -> Answer
    ensures { ShowsSent sending output.items result }
{
    match sending {
        Sending::Plain => Answer::WentPlain,
        Sending::Sent { mode, length } => {
            let mut message = output;
            message.truncate(length);
            Answer::Sent { mode, message }
        }
    }
}

// The answer of receive and plain: the cleartext is the front of the output.
fn handed_answer(outcome: Result<Handed, Refusal>, output: Vec<u8>, report: u8) -> Answer
    ensures { ShowsHanded outcome output.items report result }
{
    match outcome {
        Ok(handed) => {
            let mut cleartext = output;
            cleartext.truncate(handed.length);
            Answer::Handed {
                component: handed.component,
                mode: handed.mode,
                cleartext,
                report,
            }
        }
        Err(refusal) => Answer::Refused { refusal, report },
    }
}

impl Site<'_> {
    // Installs an association.
    fn install<C: CipherBank, T: TagBank>(
        &mut self,
        banks: &Banks<C, T>,
        reading: u64,
        association: SecurityAssociation,
    ) -> Answer
        ensures { InstallStep (C.CipherBank.means banks.now.ciphers) (T.TagBank.means banks.now.tags) reading association self.old.station self.new.station (contents_of self.old.registers) (contents_of self.new.registers) result }
    {
        kept(
            self.station.install(
                &mut self.registers,
                &banks.ciphers,
                &banks.tags,
                reading,
                association,
            ),
        )
    }

    // Protects into an output of `room` octets, of which the answer keeps the message.
    fn protect<C: CipherBank, T: TagBank>(
        &mut self,
        heap: Global,
        banks: &mut Banks<C, T>,
        reading: u64,
        network: u32,
        component: ComponentId,
        cleartext: &[u8],
        room: usize,
    ) -> Result<Answer, AllocError>
        ensures banks { MeanTheSame C.CipherBank.means T.TagBank.means banks.old banks.new }
        ensures registers { contents_of self.new.registers ≡ contents_of self.old.registers }
        ensures step { IfOk result (λ a. ProtectStep (C.CipherBank.means banks.old.ciphers) (T.TagBank.means banks.old.tags) reading network component cleartext.now room self.old.station self.new.station (contents_of self.old.registers) a) }
    {
        let mut output = vec![in heap; 0; room]?;
        let outcome = self.station.protect(
            &self.registers,
            banks,
            reading,
            network,
            component,
            cleartext,
            output.as_mut_slice(),
        );
        Ok(sending_answer(outcome, output))
    }

    // Receives into an output of `room` octets, of which the answer keeps the cleartext, and closes the slip.
    fn receive<C: CipherBank, T: TagBank>(
        &mut self,
        heap: Global,
        banks: &mut Banks<C, T>,
        reading: u64,
        network: u32,
        waiting: bool,
        message: &[u8],
        room: usize,
    ) -> Result<Answer, AllocError>
        ensures banks { MeanTheSame C.CipherBank.means T.TagBank.means banks.old banks.new }
        ensures step { IfOk result (λ a. ReceiveStep (C.CipherBank.means banks.old.ciphers) (T.TagBank.means banks.old.tags) reading network waiting message.now room self.old.station self.new.station (contents_of self.old.registers) (contents_of self.new.registers) a) }
    {
        let mut output = vec![in heap; 0; room]?;
        let Received { outcome, slip } = self.station.receive(
            &mut self.registers,
            banks,
            reading,
            network,
            waiting,
            message,
            output.as_mut_slice(),
        );
        Ok(handed_answer(outcome, output, close(slip)))
    }

    // Takes a component that came without MAPsec, whose cleartext the answer repeats, and closes the slip.
    fn plain(
        &mut self,
        heap: Global,
        reading: u64,
        component: ComponentId,
        waiting: bool,
        cleartext: &[u8],
    ) -> Result<Answer, AllocError>
        ensures registers { contents_of self.new.registers ≡ contents_of self.old.registers }
        ensures step { IfOk result (λ a. PlainStep reading component waiting cleartext.now self.old.station self.new.station a) }
    {
        let copy = Vec::from_slice(heap, cleartext)?;
        let Received { outcome, slip } = self.station.plain(reading, component, waiting, cleartext);
        Ok(handed_answer(outcome, copy, close(slip)))
    }

    // Makes a call.
    pub(crate) fn play<C: CipherBank, T: TagBank>(
        &mut self,
        heap: Global,
        banks: &mut Banks<C, T>,
        call: &Call<'_>,
    ) -> Result<Answer, AllocError>
        ensures banks { MeanTheSame C.CipherBank.means T.TagBank.means banks.old banks.new }
        ensures step { IfOk result (λ a. Steps (C.CipherBank.means banks.old.ciphers) (T.TagBank.means banks.old.tags) call.now a (post_of self.old) (post_of self.new)) }
    {
        match *call {
            Call::Admit { network, stance } => Ok(kept(
                self.station.admit(&mut self.registers, network, stance),
            )),
            Call::Install {
                reading,
                association,
            } => Ok(self.install(banks, reading, association)),
            Call::Revoke { destination, spi } => Ok(kept(
                self.station.revoke(&mut self.registers, destination, spi),
            )),
            Call::Protect {
                reading,
                network,
                component,
                cleartext,
                room,
            } => self.protect(heap, banks, reading, network, component, cleartext, room),
            Call::Receive {
                reading,
                network,
                waiting,
                message,
                room,
            } => self.receive(heap, banks, reading, network, waiting, message, room),
            Call::Plain {
                reading,
                component,
                waiting,
                cleartext,
            } => self.plain(heap, reading, component, waiting, cleartext),
        }
    }
}
