// Admit, install and revoke at their edges.
use crate::setup::{OTHER, OWN, association, gateway, told};
use station::records::{HeardMessage, Policy, SecurityAssociation};
use station::registers::Registers;
use std::test::Fail;

#[test]
fn no_places(rt: HostRuntime) -> Result<(), Fail> {
    let mut policies: [Option<Policy>; 0] = [];
    let mut associations: [Option<SecurityAssociation>; 0] = [];
    let mut heard: [Option<HeardMessage>; 0] = [];
    let mut gateway = gateway(rt.alloc())?;
    let mut registers = Registers::new(&mut policies, &mut associations, &mut heard);
    assert_eq!(rt; told(gateway.admit(&mut registers, OTHER, 2)), (35, 0));
    assert_eq!(rt; told(gateway.admit(&mut registers, OTHER, 0)), (0, 0));
    assert_eq!(rt;
        told(gateway.install(&mut registers, 10, association(OWN, OTHER, 4, 20, 30))),
        (35, 0)
    );
    assert_eq!(rt; told(gateway.revoke(&mut registers, OTHER, 4)), (34, 0));
    Ok(())
}

#[test]
fn policies_in_one_place(rt: HostRuntime) -> Result<(), Fail> {
    let mut policies = [None];
    let mut associations = [None];
    let mut heard = [None];
    let gateway = gateway(rt.alloc())?;
    let mut registers = Registers::new(&mut policies, &mut associations, &mut heard);
    let cases = [
        (16_777_216, 3, (33, 1)),
        (16_777_215, 3, (33, 2)),
        (16_777_215, 255, (33, 2)),
        (16_777_215, 2, (0, 0)),
        (OTHER, 1, (35, 1)),
        (16_777_215, 1, (0, 0)),
        (OTHER, 0, (0, 0)),
        (16_777_215, 0, (0, 0)),
        (OTHER, 1, (0, 0)),
    ];
    for (network, stance, expected) in cases {
        assert_eq!(rt;
            told(gateway.admit(&mut registers, network, stance)),
            expected
        );
    }
    Ok(())
}

#[test]
fn fields_at_their_edges(rt: HostRuntime) -> Result<(), Fail> {
    let mut policies = [None];
    let mut associations = [None; 8];
    let mut heard = [None];
    let mut gateway = gateway(rt.alloc())?;
    let mut registers = Registers::new(&mut policies, &mut associations, &mut heard);
    let cases = [
        (10, association(16_777_216, OWN, 1, 0, 0), (33, 1)),
        (10, association(OTHER, OTHER, 1, 0, 0), (33, 1)),
        (10, association(OWN, 16_777_216, 1, 0, 0), (33, 2)),
        (10, association(OWN, OTHER, 1, 31, 30), (33, 9)),
        (10, association(OWN, OTHER, 1, 10, 10), (33, 10)),
        (10, association(OWN, OTHER, 1, 10, 2_147_483_659), (33, 10)),
        (10, association(OWN, OTHER, 1, 10, 2_147_483_658), (0, 0)),
        (9, association(OWN, OTHER, 2, 10, 11), (14, 0)),
        (10, association(OWN, OTHER, 1, 10, 11), (32, 3)),
        (10, association(OWN, 16_777_215, 1, 0, 11), (0, 0)),
        (11, association(OWN, 16_777_215, 1, 12, 12), (0, 0)),
        (
            281_474_976_710_656,
            association(OWN, OTHER, 3, 0, 0),
            (14, 0),
        ),
        (
            281_474_976_710_655,
            association(OTHER, OWN, 3, 0, 281_474_976_710_656),
            (0, 0),
        ),
        (
            281_474_976_710_654,
            association(OWN, OTHER, 4, 0, 0),
            (14, 0),
        ),
    ];
    for (reading, record, expected) in cases {
        assert_eq!(rt;
            told(gateway.install(&mut registers, reading, record)),
            expected
        );
    }
    let mut unknown = association(OWN, OTHER, 5, 0, 281_474_976_710_657);
    unknown.mea = 2;
    assert_eq!(rt;
        told(gateway.install(&mut registers, 281_474_976_710_655, unknown)),
        (33, 4)
    );
    unknown.mea = 0;
    unknown.mia = 0;
    assert_eq!(rt;
        told(gateway.install(&mut registers, 281_474_976_710_655, unknown)),
        (33, 6)
    );
    Ok(())
}

// One place for associations: it is free again once the record in it is past, or revoked.
#[test]
fn associations_in_one_place(rt: HostRuntime) -> Result<(), Fail> {
    let mut policies = [None];
    let mut associations = [None];
    let mut heard = [None];
    let mut gateway = gateway(rt.alloc())?;
    let mut registers = Registers::new(&mut policies, &mut associations, &mut heard);
    assert_eq!(rt;
        told(gateway.install(&mut registers, 10, association(OWN, OTHER, 4, 20, 30))),
        (0, 0)
    );
    assert_eq!(rt;
        told(gateway.install(&mut registers, 29, association(OWN, OTHER, 5, 40, 50))),
        (35, 1)
    );
    assert_eq!(rt;
        told(gateway.install(&mut registers, 29, association(OWN, OTHER, 4, 40, 50))),
        (32, 3)
    );
    assert_eq!(rt;
        told(gateway.install(&mut registers, 30, association(OWN, OTHER, 5, 40, 50))),
        (0, 0)
    );
    assert_eq!(rt; told(gateway.revoke(&mut registers, OTHER, 4)), (34, 0));
    assert_eq!(rt; told(gateway.revoke(&mut registers, OWN, 5)), (34, 0));
    assert_eq!(rt; told(gateway.revoke(&mut registers, OTHER, 5)), (0, 0));
    assert_eq!(rt;
        told(gateway.install(&mut registers, 30, association(OWN, OTHER, 6, 40, 50))),
        (0, 0)
    );
    Ok(())
}

// More places than the bound: the 65th policy finds none.
#[test]
fn policies_past_the_bound(rt: HostRuntime) -> Result<(), Fail> {
    let mut policies = [None; 70];
    let mut associations = [None];
    let mut heard = [None];
    let gateway = gateway(rt.alloc())?;
    let mut registers = Registers::new(&mut policies, &mut associations, &mut heard);
    for network in 0..64 {
        assert_eq!(rt; told(gateway.admit(&mut registers, network, 2)), (0, 0));
    }
    assert_eq!(rt; told(gateway.admit(&mut registers, 64, 2)), (35, 64));
    Ok(())
}
