// Lines that are read.
use calls::Call;
use statements::declaration::{Declaration, Name, Places};
use statements::statement::{Statement, read_statement};
use words::numbers::answer_number;

#[test]
fn declarations_are_read(rt: HostRuntime) {
    assert!(rt;
        matches!(
            read_statement(b"station B own 0xff ne 007 back 6000 ahead 600 fallback yes # both"),
            Ok(Some(Statement::Declares(Declaration::Station {
                name: Name::B,
                own: 255,
                ne_id: 7,
                back: 6000,
                ahead: 600,
                fallback: true,
                places: Places {
                    policies: 64,
                    associations: 256,
                    heard: 4096
                }
            })))
        )
    );
    assert!(rt;
        matches!(
            read_statement(b"\t profile A 1 2 6"),
            Ok(Some(Statement::Declares(Declaration::Profile {
                name: Name::A,
                ppi: 1,
                code: 2,
                level: 6
            })))
        )
    );
}

#[test]
fn calls_are_read(rt: HostRuntime) {
    assert!(rt;
        matches!(
            read_statement(b"B receive 0x10 2 yes @7 65536"),
            Ok(Some(Statement::Calls {
                name: Name::B,
                call: Call::Receive {
                    reading: 16,
                    network: 2,
                    waiting: true,
                    room: 65536
                }
            }))
        )
    );
    assert!(rt;
        matches!(
            read_statement(b"A plain 1 2 3 no -"),
            Ok(Some(Statement::Calls {
                name: Name::A,
                call: Call::Plain {
                    reading: 1,
                    kind: 2,
                    code: 3,
                    waiting: false
                }
            }))
        )
    );
}

#[test]
fn answers_are_named(rt: HostRuntime) {
    assert_eq!(rt; answer_number(b"@7"), Some(7));
    assert_eq!(rt; answer_number(b"@0x1F"), Some(31));
    assert_eq!(rt; answer_number(b"@18446744073709551615"), Some(u64::MAX));
    assert_eq!(rt; answer_number(b"@18446744073709551616"), None);
    assert_eq!(rt; answer_number(b"@"), None);
    assert_eq!(rt; answer_number(b"@-"), None);
    assert_eq!(rt; answer_number(b"7"), None);
}
