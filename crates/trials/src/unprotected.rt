// Components that come unprotected: by receive in mode 0, and by plain.
use crate::arriving::{UNTOUCHED, WRITTEN, attempt};
use crate::setup::{OTHER, OWN, association, gateway, gateway_of, taken, told};
use delivery::Gateway;
use rules::component::ComponentId;
use station::registers::Registers;
use std::test::Fail;

// What becomes of a component of `size` octets that came without MAPsec.
fn attempt_plain(
    gateway: &mut Gateway,
    reading: u64,
    component: ComponentId,
    waiting: bool,
    size: usize,
) -> (u8, usize, u8) {
    let cleartext = [0xaa; 1025];
    if size > 1025 {
        return (0, 0, 0);
    }
    taken(gateway.plain(reading, component, waiting, &cleartext[0..size]))
}

// Component (1,37) is on the protected list. PPI 8 gives it mode 0.
#[test]
fn listed(rt: HostRuntime) -> Result<(), Fail> {
    let message = [0, 0, 0, 4, 1, 37, 0xa0, 0xa1, 0xa2];
    let cases = [
        (false, true, (23, 4, 23, UNTOUCHED), (23, 0, 23)),
        (false, false, (23, 4, 0, UNTOUCHED), (23, 0, 0)),
        (true, true, (0, 3, 0, WRITTEN), (0, 3, 0)),
        (true, false, (0, 3, 0, WRITTEN), (0, 3, 0)),
    ];
    for (fallback, waiting, received, taken) in cases {
        let mut policies = [None];
        let mut associations = [None];
        let mut heard = [None];
        let mut gateway = gateway_of(rt.alloc(), OWN, fallback)?;
        let mut registers = Registers::new(&mut policies, &mut associations, &mut heard);
        let mut record = association(OTHER, OWN, 4, 600, 800);
        record.ppi = 8;
        assert_eq!(rt; told(gateway.admit(&mut registers, OTHER, 2)), (0, 0));
        assert_eq!(rt; told(gateway.install(&mut registers, 10, record)), (0, 0));
        assert_eq!(rt;
            attempt(
                &mut gateway,
                &mut registers,
                10,
                OTHER,
                waiting,
                &message,
                3,
            ),
            received
        );
        assert_eq!(rt;
            attempt_plain(
                &mut gateway,
                10,
                ComponentId { kind: 1, code: 37 },
                waiting,
                3,
            ),
            taken
        );
    }
    Ok(())
}

// Plain at its edges. It is told no network, and needs no policy.
#[test]
fn plain(rt: HostRuntime) -> Result<(), Fail> {
    let mut gateway = gateway(rt.alloc())?;
    let cases = [
        (10, 0, 37, 0, (13, 0, 0)),
        (10, 4, 37, 1025, (13, 0, 0)),
        (10, 255, 37, 0, (13, 0, 0)),
        (10, 1, 37, 1025, (12, 0, 0)),
        (10, 1, 37, 1024, (23, 0, 23)),
        (10, 1, 38, 1025, (12, 0, 0)),
        (10, 1, 38, 1024, (0, 1024, 0)),
        (10, 3, 37, 0, (0, 0, 0)),
        (9, 0, 37, 1025, (14, 0, 0)),
        (281_474_976_710_656, 3, 37, 0, (14, 0, 0)),
        (281_474_976_710_655, 2, 37, 1, (0, 1, 0)),
        (281_474_976_710_654, 2, 37, 1, (14, 0, 0)),
    ];
    for (reading, kind, code, size, expected) in cases {
        assert_eq!(rt;
            attempt_plain(
                &mut gateway,
                reading,
                ComponentId { kind, code },
                true,
                size,
            ),
            expected
        );
    }
    Ok(())
}
