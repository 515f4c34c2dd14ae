// Writing the octets of a message.
ghost use Rattle.std.specs.Prelude.{◌≡◌, ◌+◌, length};
ghost use Rattle.banks.specs.Banks.{MeanTheSame, HoldTheSame};
ghost use Rattle.rules.specs.Layout.{open_message};
ghost use Rattle.station.specs.Seal.{turned, sealed_under};

use crate::records::SecurityAssociation;
use banks::Banks;
use banks::cipher::CipherBank;
use banks::tag::TagBank;
use keys::Iv;
use octets::Octets;
use rules::message::{IvFields, OPEN_HEADER, SEALED_HEADER, SecurityHeader, TAG};
use rules::protection::ProtectionMode;

// Turns cleartext into payload, and payload into cleartext: in mode 2 by the association's cipher, else not at all.
pub(crate) fn turn<C: CipherBank>(
    ciphers: &mut C,
    association: &SecurityAssociation,
    fields: IvFields,
    mode: ProtectionMode,
    octets: &mut [u8],
)
    ensures stays { C.CipherBank.means ciphers.new ≡ C.CipherBank.means ciphers.old }
    ensures holds { C.CipherBank.held ciphers.new ≡ C.CipherBank.held ciphers.old }
    ensures octets { octets.new ≡ turned (C.CipherBank.means ciphers.old) association.now fields mode octets.old }
{
    if let ProtectionMode::Confidentiality = mode {
        ciphers.run(
            association.mea,
            &association.cipher_key,
            &Iv::from(fields.iv()),
            octets,
        );
    }
}

// A message in mode 0.
pub(crate) fn write_open(header: SecurityHeader, cleartext: &[u8], message: &mut [u8])
    requires { length message.old ≡ 6 + length cleartext.now }
    ensures { message.new ≡ open_message header cleartext.now }
{
    let end = message.len();
    message[0..OPEN_HEADER].copy_from_slice(&header.open_octets());
    message[OPEN_HEADER..end].copy_from_slice(cleartext);
}

// A message in mode 1 or 2.
pub(crate) fn write_sealed<C: CipherBank, T: TagBank>(
    banks: &mut Banks<C, T>,
    association: &SecurityAssociation,
    header: SecurityHeader,
    fields: IvFields,
    mode: ProtectionMode,
    cleartext: &[u8],
    message: &mut [u8],
)
    requires { length message.old ≡ 24 + length cleartext.now }
    ensures banks { MeanTheSame C.CipherBank.means T.TagBank.means banks.old banks.new }
    ensures held { HoldTheSame C.CipherBank.held T.TagBank.held banks.old banks.new }
    ensures message { message.new ≡ sealed_under (C.CipherBank.means banks.old.ciphers) (T.TagBank.means banks.old.tags) association.now header fields mode cleartext.now }
{
    let end = message.len();
    let tag_place = end - TAG;
    message[0..SEALED_HEADER].copy_from_slice(&header.sealed_octets(fields));
    message[SEALED_HEADER..tag_place].copy_from_slice(cleartext);
    turn(
        &mut banks.ciphers,
        association,
        fields,
        mode,
        &mut message[SEALED_HEADER..tag_place],
    );
    let tag = banks.tags.tag(
        association.mia,
        &association.integrity_key,
        &message[0..SEALED_HEADER],
        &message[SEALED_HEADER..tag_place],
    );
    message[tag_place..end].copy_from_slice(&tag.to_octets());
}
