// Messages that arrive, and what becomes of them.
use crate::setup::{OTHER, OWN, association, gateway_of, sent, taken, told};
use delivery::Gateway;
use rules::component::ComponentId;
use station::registers::Registers;
use std::alloc::Global;
use std::process::Abort;
use std::test::Fail;

// The front of an output that nothing was written to, and of one that the cleartext of the trials was written to.
pub const UNTOUCHED: [u8; 4] = [0x55, 0x55, 0x55, 0x55];

pub const WRITTEN: [u8; 4] = [0xa0, 0xa1, 0xa2, 0x55];

// Has network 2 protect a component for network 1 at a reading, under SPI 4, in a message that fits the output.
pub fn protect_into(
    rt: &impl Abort,
    heap: Global,
    reading: u64,
    component: ComponentId,
    cleartext: &[u8],
    output: &mut [u8],
) -> Result<(), Fail> {
    let mut policies = [None];
    let mut associations = [None];
    let mut heard = [None];
    let mut gateway = gateway_of(heap, OTHER, false)?;
    let mut registers = Registers::new(&mut policies, &mut associations, &mut heard);
    let hard = reading.saturating_add(1000);
    let room = output.len();
    assert_eq!(rt; told(gateway.admit(&mut registers, OWN, 2)), (0, 0));
    assert_eq!(rt;
        told(gateway.install(&mut registers, reading, association(OTHER, OWN, 4, 0, hard))),
        (0, 0)
    );
    let (_, length) = sent(gateway.protect(&registers, reading, OWN, component, cleartext, output));
    assert_eq!(rt; length, room);
    Ok(())
}

// The message of the octets A0 A1 A2; the last octet of its tag changed by `spoil`.
pub fn made(
    rt: &impl Abort,
    heap: Global,
    reading: u64,
    component: ComponentId,
    spoil: u8,
) -> Result<[u8; 27], Fail> {
    let mut message = [0; 27];
    protect_into(
        rt,
        heap,
        reading,
        component,
        &[0xa0, 0xa1, 0xa2],
        &mut message,
    )?;
    message[26] ^= spoil;
    Ok(message)
}

// What becomes of a message, with `room` octets of output; and the first four octets of the output, which held 0x55 before.
pub fn attempt(
    gateway: &mut Gateway,
    registers: &mut Registers<'_>,
    reading: u64,
    network: u32,
    waiting: bool,
    message: &[u8],
    room: usize,
) -> (u8, usize, u8, [u8; 4]) {
    let mut output = [0x55; 1024];
    if room > 1024 {
        return (0, 0, 0, [0; 4]);
    }
    let (number, place, report) = taken(gateway.receive(
        registers,
        reading,
        network,
        waiting,
        message,
        &mut output[0..room],
    ));
    (
        number,
        place,
        report,
        [output[0], output[1], output[2], output[3]],
    )
}
