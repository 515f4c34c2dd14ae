// Protect at its edges.
use crate::setup::{OTHER, OWN, association, gateway, sent, told};
use delivery::Gateway;
use rules::component::ComponentId;
use station::registers::Registers;
use std::test::Fail;

const THIRD: u32 = 3;

// What comes of a component of `size` octets, with `room` octets of output.
fn attempt(
    gateway: &mut Gateway,
    registers: &Registers<'_>,
    reading: u64,
    network: u32,
    component: ComponentId,
    size: usize,
    room: usize,
) -> (u8, usize) {
    let cleartext = [0xaa; 1025];
    let mut output = [0; 1048];
    if (size > 1025) | (room > 1048) {
        return (0, 0);
    }
    sent(gateway.protect(
        registers,
        reading,
        network,
        component,
        &cleartext[0..size],
        &mut output[0..room],
    ))
}

// The same for an empty component and 24 octets of output; with the last octet of Prop.
fn attempt_empty(
    gateway: &mut Gateway,
    registers: &Registers<'_>,
    reading: u64,
    network: u32,
) -> (u8, usize, u8) {
    let mut output = [0; 24];
    let (number, place) = sent(gateway.protect(
        registers,
        reading,
        network,
        ComponentId { kind: 1, code: 37 },
        &[],
        &mut output,
    ));
    (number, place, output[19])
}

#[test]
fn lengths_and_kinds(rt: HostRuntime) -> Result<(), Fail> {
    let mut policies = [None; 3];
    let mut associations = [None; 3];
    let mut heard = [None];
    let mut gateway = gateway(rt.alloc())?;
    let mut registers = Registers::new(&mut policies, &mut associations, &mut heard);
    assert_eq!(rt; told(gateway.admit(&mut registers, OTHER, 2)), (0, 0));
    assert_eq!(rt; told(gateway.admit(&mut registers, THIRD, 1)), (0, 0));
    assert_eq!(rt;
        told(gateway.install(&mut registers, 10, association(OWN, OTHER, 4, 600, 800))),
        (0, 0)
    );
    let cases = [
        (10, OTHER, 0, 37, 0, 1048, (13, 0)),
        (10, OTHER, 4, 37, 1025, 0, (13, 0)),
        (10, OTHER, 1, 37, 1025, 0, (12, 0)),
        (10, 0x1000000, 1, 37, 1, 0, (21, 0)),
        (10, THIRD, 1, 37, 1, 0, (9, 0)),
        (9, OTHER, 1, 37, 1, 1048, (14, 0)),
        (10, OTHER, 1, 37, 0, 23, (51, 24)),
        (10, OTHER, 1, 37, 0, 0, (51, 24)),
        (10, OTHER, 1, 37, 0, 24, (1, 24)),
        (10, OTHER, 2, 56, 1024, 1048, (2, 1048)),
        (10, OTHER, 2, 37, 1, 7, (0, 7)),
        (10, OTHER, 3, 56, 1, 6, (51, 7)),
        (799, OTHER, 1, 56, 1, 1048, (1, 25)),
        (800, OTHER, 1, 56, 1, 1048, (31, 0)),
    ];
    for (reading, network, kind, code, size, room, expected) in cases {
        assert_eq!(rt;
            attempt(
                &mut gateway,
                &registers,
                reading,
                network,
                ComponentId { kind, code },
                size,
                room,
            ),
            expected
        );
    }
    Ok(())
}

// 200 in one tick over two partners, the 201st, and the tick after.
#[test]
fn a_full_tick(rt: HostRuntime) -> Result<(), Fail> {
    let mut policies = [None; 3];
    let mut associations = [None; 3];
    let mut heard = [None];
    let mut gateway = gateway(rt.alloc())?;
    let mut registers = Registers::new(&mut policies, &mut associations, &mut heard);
    for network in [OTHER, THIRD] {
        assert_eq!(rt; told(gateway.admit(&mut registers, network, 2)), (0, 0));
        assert_eq!(rt;
            told(gateway.install(&mut registers, 10, association(OWN, network, 4, 600, 800))),
            (0, 0)
        );
    }
    for prop in 0..100 {
        assert_eq!(rt;
            attempt_empty(&mut gateway, &registers, 20, OTHER),
            (1, 24, 2 * prop)
        );
        assert_eq!(rt;
            attempt_empty(&mut gateway, &registers, 20, THIRD),
            (1, 24, 2 * prop + 1)
        );
    }
    assert_eq!(rt;
        attempt_empty(&mut gateway, &registers, 20, OTHER),
        (45, 200, 0)
    );
    assert_eq!(rt;
        attempt(
            &mut gateway,
            &registers,
            20,
            OTHER,
            ComponentId { kind: 1, code: 37 },
            0,
            23,
        ),
        (51, 24)
    );
    assert_eq!(rt;
        attempt(
            &mut gateway,
            &registers,
            20,
            OTHER,
            ComponentId { kind: 3, code: 37 },
            0,
            6,
        ),
        (0, 6)
    );
    assert_eq!(rt;
        attempt_empty(&mut gateway, &registers, 21, OTHER),
        (1, 24, 0)
    );
    Ok(())
}
