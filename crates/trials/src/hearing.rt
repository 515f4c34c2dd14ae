// What is fresh, and what was heard before.
use crate::arriving::{UNTOUCHED, WRITTEN, attempt, made};
use crate::setup::{OTHER, OWN, association, gateway, told};
use rules::component::ComponentId;
use station::registers::Registers;
use std::alloc::Global;
use std::process::Abort;
use std::test::Fail;

// What a new gateway makes, at a reading, of a message that was made at another one.
fn first_heard(
    rt: &impl Abort,
    heap: Global,
    made_at: u64,
    reading: u64,
) -> Result<(u8, usize, u8, [u8; 4]), Fail> {
    let mut policies = [None];
    let mut associations = [None];
    let mut heard = [None];
    let mut gateway = gateway(heap)?;
    let mut registers = Registers::new(&mut policies, &mut associations, &mut heard);
    let hard = reading.saturating_add(1000);
    assert_eq!(rt; told(gateway.admit(&mut registers, OTHER, 2)), (0, 0));
    assert_eq!(rt;
        told(gateway.install(&mut registers, reading, association(OTHER, OWN, 4, 0, hard))),
        (0, 0)
    );
    let message = made(rt, heap, made_at, ComponentId { kind: 1, code: 37 }, 0)?;
    Ok(attempt(
        &mut gateway,
        &mut registers,
        reading,
        OTHER,
        true,
        &message,
        3,
    ))
}

// Back is 300 and ahead 50, on both sides of the roll-over of the stamp, and for a stamp of a tick before 0.
#[test]
fn the_window(rt: HostRuntime) -> Result<(), Fail> {
    let cases = [
        (699, 1000, false),
        (700, 1000, true),
        (1050, 1000, true),
        (1051, 1000, false),
        (4_294_967_099, 4_294_967_400, false),
        (4_294_967_100, 4_294_967_400, true),
        (4_294_967_450, 4_294_967_400, true),
        (4_294_967_451, 4_294_967_400, false),
        (4_294_967_295, 10, true),
    ];
    for (made_at, reading, fresh) in cases {
        let expected = if fresh {
            (1, 3, 0, WRITTEN)
        } else {
            (41, 6, 0, UNTOUCHED)
        };
        assert_eq!(rt; first_heard(&rt, rt.alloc(), made_at, reading)?, expected);
    }
    Ok(())
}

// The same message over and over. Its stamp comes again after one round, and then it is handed on again.
#[test]
fn the_same_again(rt: HostRuntime) -> Result<(), Fail> {
    let mut policies = [None];
    let mut associations = [None];
    let mut heard = [None];
    let mut gateway = gateway(rt.alloc())?;
    let mut registers = Registers::new(&mut policies, &mut associations, &mut heard);
    assert_eq!(rt; told(gateway.admit(&mut registers, OTHER, 2)), (0, 0));
    let message = made(&rt, rt.alloc(), 1000, ComponentId { kind: 1, code: 37 }, 0)?;
    for round in [0, 4_294_967_296] {
        assert_eq!(rt;
            told(gateway.install(
                &mut registers,
                round,
                association(OTHER, OWN, 4, 0, round + 2000),
            )),
            (0, 0)
        );
        let cases = [
            (1000, (1, 3, 0, WRITTEN)),
            (1000, (43, 6, 0, UNTOUCHED)),
            (1300, (43, 6, 0, UNTOUCHED)),
            (1301, (41, 6, 0, UNTOUCHED)),
        ];
        for (tick, expected) in cases {
            assert_eq!(rt;
                attempt(
                    &mut gateway,
                    &mut registers,
                    round + tick,
                    OTHER,
                    true,
                    &message,
                    3,
                ),
                expected
            );
        }
    }
    Ok(())
}

// One place for heard messages: it is free one tick after the last tick of the message in it.
#[test]
fn one_place(rt: HostRuntime) -> Result<(), Fail> {
    let mut policies = [None];
    let mut associations = [None];
    let mut heard = [None];
    let mut gateway = gateway(rt.alloc())?;
    let mut registers = Registers::new(&mut policies, &mut associations, &mut heard);
    assert_eq!(rt; told(gateway.admit(&mut registers, OTHER, 2)), (0, 0));
    assert_eq!(rt;
        told(gateway.install(&mut registers, 10, association(OTHER, OWN, 4, 600, 2000))),
        (0, 0)
    );
    let first = made(&rt, rt.alloc(), 1000, ComponentId { kind: 1, code: 37 }, 0)?;
    let second = made(&rt, rt.alloc(), 1001, ComponentId { kind: 1, code: 37 }, 0)?;
    let cases = [
        (1000, &first, (1, 3, 0, WRITTEN)),
        (1300, &second, (44, 1, 0, UNTOUCHED)),
        (1301, &second, (1, 3, 0, WRITTEN)),
        (1301, &second, (43, 6, 0, UNTOUCHED)),
    ];
    for (reading, message, expected) in cases {
        assert_eq!(rt;
            attempt(
                &mut gateway,
                &mut registers,
                reading,
                OTHER,
                true,
                message,
                3,
            ),
            expected
        );
    }
    Ok(())
}
