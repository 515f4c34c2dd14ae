// Receive at its edges: lengths, kinds, room, and who sends.
use crate::arriving::{UNTOUCHED, WRITTEN, attempt, made, protect_into};
use crate::setup::{OTHER, OWN, association, gateway, taken, told};
use keys::Key;
use rules::component::ComponentId;
use station::registers::Registers;
use std::test::Fail;

const THIRD: u32 = 3;

const FOURTH: u32 = 4;

// Octets that nobody protected, under SPI 4 and of any length: a sealed message of them has no right tag.
#[test]
fn lengths_and_kinds(rt: HostRuntime) -> Result<(), Fail> {
    let mut policies = [None];
    let mut associations = [None];
    let mut heard = [None];
    let mut gateway = gateway(rt.alloc())?;
    let mut registers = Registers::new(&mut policies, &mut associations, &mut heard);
    assert_eq!(rt; told(gateway.admit(&mut registers, OTHER, 2)), (0, 0));
    assert_eq!(rt;
        told(gateway.install(&mut registers, 10, association(OTHER, OWN, 4, 600, 800))),
        (0, 0)
    );
    let cases = [
        (0, 1, (11, 0, 0)),
        (5, 1, (11, 5, 0)),
        (6, 1, (11, 6, 0)),
        (23, 1, (11, 23, 0)),
        (24, 1, (42, 20, 42)),
        (1048, 1, (42, 1044, 42)),
        (1049, 1, (12, 20, 0)),
        (2000, 1, (12, 20, 0)),
        (5, 3, (11, 5, 0)),
        (6, 3, (0, 0, 0)),
        (23, 3, (0, 17, 0)),
        (24, 3, (0, 18, 0)),
        (1030, 3, (0, 1024, 0)),
        (1031, 3, (12, 6, 0)),
        (2000, 3, (12, 6, 0)),
        (6, 0, (13, 4, 0)),
        (6, 2, (0, 0, 0)),
        (6, 4, (13, 4, 0)),
        (6, 255, (13, 4, 0)),
    ];
    for (size, kind, expected) in cases {
        let mut message = [0; 2000];
        message[3] = 4;
        message[4] = kind;
        message[5] = 37;
        if size <= 2000 {
            let (number, place, report, _) = attempt(
                &mut gateway,
                &mut registers,
                10,
                OTHER,
                true,
                &message[0..size],
                1024,
            );
            assert_eq!(rt; (number, place, report), expected);
        }
    }
    Ok(())
}

// The shortest and the longest sealed messages, in modes 1 and 2.
#[test]
fn shortest_and_longest(rt: HostRuntime) -> Result<(), Fail> {
    let mut policies = [None];
    let mut associations = [None];
    let mut heard = [None; 4];
    let mut gateway = gateway(rt.alloc())?;
    let mut registers = Registers::new(&mut policies, &mut associations, &mut heard);
    assert_eq!(rt; told(gateway.admit(&mut registers, OTHER, 2)), (0, 0));
    assert_eq!(rt;
        told(gateway.install(&mut registers, 10, association(OTHER, OWN, 4, 600, 800))),
        (0, 0)
    );
    let cleartext = [0xaa; 1024];
    let cases = [(10, 1, 37, 1), (11, 2, 56, 2)];
    for (reading, kind, code, mode) in cases {
        let component = ComponentId { kind, code };
        let mut short = [0; 24];
        let mut long = [0; 1048];
        protect_into(&rt, rt.alloc(), reading, component, &[], &mut short)?;
        assert_eq!(rt;
            attempt(&mut gateway, &mut registers, 20, OTHER, true, &short, 0),
            (mode, 0, 0, UNTOUCHED)
        );
        protect_into(
            &rt,
            rt.alloc(),
            reading + 5,
            component,
            &cleartext,
            &mut long,
        )?;
        assert_eq!(rt;
            attempt(&mut gateway, &mut registers, 20, OTHER, true, &long, 1024),
            (mode, 1024, 0, [0xaa; 4])
        );
    }
    Ok(())
}

// One octet of room too few, and just enough, in each mode.
#[test]
fn room(rt: HostRuntime) -> Result<(), Fail> {
    let mut policies = [None];
    let mut associations = [None];
    let mut heard = [None; 2];
    let mut gateway = gateway(rt.alloc())?;
    let mut registers = Registers::new(&mut policies, &mut associations, &mut heard);
    assert_eq!(rt; told(gateway.admit(&mut registers, OTHER, 2)), (0, 0));
    assert_eq!(rt;
        told(gateway.install(&mut registers, 10, association(OTHER, OWN, 4, 600, 800))),
        (0, 0)
    );
    let first = made(&rt, rt.alloc(), 10, ComponentId { kind: 1, code: 37 }, 0)?;
    let second = made(&rt, rt.alloc(), 11, ComponentId { kind: 2, code: 56 }, 0)?;
    let open = [0, 0, 0, 4, 3, 37, 0xa0, 0xa1, 0xa2];
    let messages = [(0, &open[0..9]), (1, &first[0..27]), (2, &second[0..27])];
    for (mode, message) in messages {
        assert_eq!(rt;
            attempt(&mut gateway, &mut registers, 20, OTHER, true, message, 2),
            (51, 3, 0, UNTOUCHED)
        );
        assert_eq!(rt;
            attempt(&mut gateway, &mut registers, 20, OTHER, true, message, 3),
            (mode, 3, 0, WRITTEN)
        );
    }
    Ok(())
}

// Network 3 sends under network 2's association, network 4 has stance 1, and network 5 has no policy.
#[test]
fn senders(rt: HostRuntime) -> Result<(), Fail> {
    let mut policies = [None; 3];
    let mut associations = [None];
    let mut heard = [None];
    let mut gateway = gateway(rt.alloc())?;
    let mut registers = Registers::new(&mut policies, &mut associations, &mut heard);
    for (network, stance) in [(OTHER, 2), (THIRD, 2), (FOURTH, 1)] {
        assert_eq!(rt;
            told(gateway.admit(&mut registers, network, stance)),
            (0, 0)
        );
    }
    assert_eq!(rt;
        told(gateway.install(&mut registers, 10, association(OTHER, OWN, 4, 600, 800))),
        (0, 0)
    );
    let right = made(&rt, rt.alloc(), 10, ComponentId { kind: 1, code: 37 }, 0)?;
    let forged = made(&rt, rt.alloc(), 10, ComponentId { kind: 1, code: 37 }, 1)?;
    let cases = [
        (20, OTHER, true, &forged, (42, 23, 42, UNTOUCHED)),
        (20, OTHER, false, &forged, (42, 23, 0, UNTOUCHED)),
        (20, THIRD, true, &right, (31, 0, 31, UNTOUCHED)),
        (20, THIRD, false, &right, (31, 0, 0, UNTOUCHED)),
        (20, FOURTH, true, &right, (22, 0, 22, UNTOUCHED)),
        (20, FOURTH, false, &right, (22, 0, 0, UNTOUCHED)),
        (20, 5, true, &right, (21, 0, 21, UNTOUCHED)),
        (20, 5, false, &right, (21, 0, 0, UNTOUCHED)),
        (9, OTHER, true, &right, (14, 0, 0, UNTOUCHED)),
        (
            281_474_976_710_656,
            OTHER,
            true,
            &right,
            (14, 0, 0, UNTOUCHED),
        ),
        (800, OTHER, true, &right, (31, 0, 31, UNTOUCHED)),
        (20, OTHER, true, &right, (1, 3, 0, WRITTEN)),
        (20, OTHER, true, &right, (43, 6, 0, UNTOUCHED)),
    ];
    for (reading, network, waiting, message, expected) in cases {
        assert_eq!(rt;
            attempt(
                &mut gateway,
                &mut registers,
                reading,
                network,
                waiting,
                message,
                3,
            ),
            expected
        );
    }
    Ok(())
}

// A message in mode 2 that was computed by other means: OpenSSL gives its payload and its tag.
#[test]
fn a_message_in_mode_2(rt: HostRuntime) -> Result<(), Fail> {
    let mut policies = [None];
    let mut associations = [None];
    let mut heard = [None];
    let mut gateway = gateway(rt.alloc())?;
    let mut registers = Registers::new(&mut policies, &mut associations, &mut heard);
    assert_eq!(rt; told(gateway.admit(&mut registers, OTHER, 2)), (0, 0));
    let mut record = association(OTHER, OWN, 9, 2000, 2000);
    record.cipher_key = Key {
        high: 0x0001020304050607,
        low: 0x08090a0b0c0d0e0f,
    };
    record.integrity_key = Key {
        high: 0x1011121314151617,
        low: 0x18191a1b1c1d1e1f,
    };
    assert_eq!(rt; told(gateway.install(&mut registers, 10, record)), (0, 0));
    let message = [
        0x00, 0x00, 0x00, 0x09, 0x02, 0x38, 0x00, 0x00, 0x03, 0xe8, 0x12, 0x34, 0x56, 0x78, 0x90,
        0x12, 0x00, 0x00, 0x00, 0x00, 0xdd, 0xce, 0x08, 0xae, 0xea, 0xe2, 0xa7, 0x06, 0x43, 0xee,
        0x62, 0x1f, 0xad, 0x7c,
    ];
    let mut output = [0x55; 11];
    assert_eq!(rt;
        taken(gateway.receive(&mut registers, 1000, OTHER, true, &message, &mut output)),
        (2, 10, 0)
    );
    assert_eq!(rt;
        output,
        [
            0xa0, 0xa1, 0xa2, 0xa3, 0xa4, 0xa5, 0xa6, 0xa7, 0xa8, 0xa9, 0x55,
        ]
    );
    Ok(())
}
