// Banks that lie apart, lent to a station together: their owner learns all that is said of a call, and that both mean what they meant.
ghost use Rattle.std.specs.Prelude.{◌≡◌};
ghost use Rattle.station.specs.Protect.{Protected};
ghost use Rattle.station.specs.Receive.{Received};
ghost use Rattle.station.specs.Slips.{refusal_number};
ghost use Rattle.station.specs.States.{contents_of};

use crate::setup::{OTHER, OWN, association, sent, taken, told};
use banks::Banks;
use banks::cipher::{CipherBank, TestCipher};
use banks::lent::Lent;
use banks::tag::{TagBank, TestTag};
use cases::draft;
use rules::component::ComponentId;
use rules::refusal::Refusal;
use rules::settings::Settings;
use station::protect::Sending;
use station::receive::Handed;
use station::records::SecurityAssociation;
use station::registers::Registers;
use station::slip::Answer;
use station::station::Station;
use std::test::Fail;

fn protect<C: CipherBank, T: TagBank>(
    station: &mut Station,
    registers: &Registers<'_>,
    ciphers: &mut C,
    tags: &mut T,
    reading: u64,
    network: u32,
    component: ComponentId,
    cleartext: &[u8],
    output: &mut [u8],
) -> Result<Sending, Refusal>
    ensures ciphers { C.CipherBank.means ciphers.new ≡ C.CipherBank.means ciphers.old }
    ensures tags { T.TagBank.means tags.new ≡ T.TagBank.means tags.old }
    ensures protected { Protected (record { station = station.old; contents = contents_of registers.now; ciphers = C.CipherBank.means ciphers.old; tags = T.TagBank.means tags.old; reading = reading; network = network; component = component; cleartext = cleartext.now; output = output.old }) station.new output.new result }
{
    let mut banks = Banks {
        ciphers: Lent(ciphers),
        tags: Lent(tags),
    };
    station.protect(
        registers, &mut banks, reading, network, component, cleartext, output,
    )
}

fn receive<C: CipherBank, T: TagBank>(
    station: &mut Station,
    registers: &mut Registers<'_>,
    ciphers: &mut C,
    tags: &mut T,
    reading: u64,
    network: u32,
    waiting: bool,
    message: &[u8],
    output: &mut [u8],
) -> Answer<Handed>
    ensures ciphers { C.CipherBank.means ciphers.new ≡ C.CipherBank.means ciphers.old }
    ensures tags { T.TagBank.means tags.new ≡ T.TagBank.means tags.old }
    ensures received { Received (record { station = station.old; contents = contents_of registers.old; ciphers = C.CipherBank.means ciphers.old; tags = T.TagBank.means tags.old; reading = reading; network = network; message = message.now; output = output.old }) station.new (contents_of registers.new) output.new result.outcome }
    ensures slip { result.slip ≡ record { number = refusal_number result.outcome; waiting = waiting } }
{
    let mut banks = Banks {
        ciphers: Lent(ciphers),
        tags: Lent(tags),
    };
    station.receive(
        registers, &mut banks, reading, network, waiting, message, output,
    )
}

// Under the test banks a message of one octet in mode 2, whose cipher adds the key's first octet, 0: its tag is the sum of its octets
// and of the key's first four as a number.
#[test]
fn lent_banks(rt: HostRuntime) -> Result<(), Fail> {
    let (mut cipher, mut tag) = (TestCipher, TestTag);
    let mut banks = Banks {
        ciphers: Lent(&mut cipher),
        tags: Lent(&mut tag),
    };
    let mut policies = [None];
    let mut associations = [None];
    let mut heard = [None];
    let mut registers = Registers::new(&mut policies, &mut associations, &mut heard);
    let settings = Settings::new(draft(rt.alloc(), OWN, false)?).map_err(|_| Fail::new(
        "the settings of the trials are right",
    ))?;
    let mut station = Station::new(settings);
    let under = SecurityAssociation {
        mea: 15,
        mia: 15,
        ..association(OWN, OTHER, 4, 1_000, 2_000)
    };
    let mut output = [0; 25];
    assert_eq!(rt; told(station.admit(&mut registers, OTHER, 2)), (0, 0));
    assert_eq!(rt;
        told(station.install(&mut registers, &banks.ciphers, &banks.tags, 1_000, under)),
        (0, 0)
    );
    let result = ComponentId { kind: 2, code: 56 };
    let answer = station.protect(
        &registers,
        &mut banks,
        1_000,
        OTHER,
        result,
        &[0xaa],
        &mut output,
    );
    assert_eq!(rt; sent(answer), (2, 25));
    // 4 + 2 + 56 + 3 + 0xe8 + 0x12 + 0x34 + 0x56 + 0x78 + 0x90 + 0x12 + 0xaa + 0x00112233
    let [.., a, b, c, d] = output;
    assert_eq!(rt; [a, b, c, d], [0x00, 0x11, 0x25, 0xbc]);
    Ok(())
}

// A station's own message comes back to it: sent and received over banks that their owner has apart.
#[test]
fn banks_apart(rt: HostRuntime) -> Result<(), Fail> {
    let (mut cipher, mut tag) = (TestCipher, TestTag);
    let mut policies = [None];
    let mut associations = [None];
    let mut heard = [None];
    let mut registers = Registers::new(&mut policies, &mut associations, &mut heard);
    let settings = Settings::new(draft(rt.alloc(), OWN, false)?).map_err(|_| Fail::new(
        "the settings of the trials are right",
    ))?;
    let mut station = Station::new(settings);
    let under = SecurityAssociation {
        mea: 15,
        mia: 15,
        ..association(OWN, OWN, 4, 1_000, 2_000)
    };
    assert_eq!(rt; told(station.admit(&mut registers, OWN, 2)), (0, 0));
    assert_eq!(rt;
        told(station.install(&mut registers, &cipher, &tag, 1_000, under)),
        (0, 0)
    );
    let result = ComponentId { kind: 2, code: 56 };
    let mut message = [0; 25];
    let answer = protect(
        &mut station,
        &registers,
        &mut cipher,
        &mut tag,
        1_000,
        OWN,
        result,
        &[0xaa],
        &mut message,
    );
    assert_eq!(rt; sent(answer), (2, 25));
    let mut cleartext = [0];
    let answer = receive(
        &mut station,
        &mut registers,
        &mut cipher,
        &mut tag,
        1_000,
        OWN,
        false,
        &message,
        &mut cleartext,
    );
    assert_eq!(rt; taken(answer), (2, 1, 0));
    assert_eq!(rt; cleartext, [0xaa]);
    Ok(())
}
