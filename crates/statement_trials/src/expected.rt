// What lines are read as, or what was expected where they cannot be.
use calls::Call;
use statements::declaration::{Declaration, Name, Places};
use statements::statement::{Statement, read_statement};
use words::fault::{Expected, Keyword};

// What a line is read as; of a fault, what was expected.
fn read(line: &str) -> Result<Option<Statement>, Expected> {
    match read_statement(line.as_bytes()) {
        Ok(statement) => Ok(statement),
        Err(fault) => Err(fault.expected),
    }
}

#[test]
fn statements_are_read(rt: HostRuntime) {
    assert!(rt;
        matches!(
            read("station B own 0xff ne 007 back 6000 ahead 600 fallback yes # both"),
            Ok(Some(Statement::Declares(Declaration::Station {
                name: Name::B,
                own: 255,
                ne_id: 7,
                back: 6000,
                ahead: 600,
                fallback: true,
                places: Places {
                    policies: 64,
                    associations: 256,
                    heard: 4096
                }
            })))
        )
    );
    assert!(rt;
        matches!(
            read("\t listed A 1 2"),
            Ok(Some(Statement::Declares(Declaration::Listed {
                name: Name::A,
                kind: 1,
                code: 2
            })))
        )
    );
    assert!(rt;
        matches!(
            read("profile A 1 2 6"),
            Ok(Some(Statement::Declares(Declaration::Profile {
                name: Name::A,
                ppi: 1,
                code: 2,
                level: 6
            })))
        )
    );
    assert!(rt;
        matches!(
            read("B admit 0x10 2"),
            Ok(Some(Statement::Calls {
                name: Name::B,
                call: Call::Admit {
                    network: 16,
                    stance: 2
                }
            }))
        )
    );
    assert!(rt; matches!(read(" # nothing else"), Ok(None)));
}

#[test]
fn faults_are_told(rt: HostRuntime) {
    assert!(rt; matches!(read("bogus"), Err(Expected::Statement)));
    assert!(rt; matches!(read("listed A 256 2"), Err(Expected::Number { limit: 255 })));
    assert!(rt;
        matches!(
            read("station A own 1 back 3"),
            Err(Expected::Keyword(Keyword::Ne))
        )
    );
    assert!(rt; matches!(read("A admits 1 2"), Err(Expected::Call)));
    assert!(rt; matches!(read("A install 1 2 3 4 1 abcd"), Err(Expected::Key)));
    assert!(rt;
        matches!(
            read("A protect 1 2 1 2 - 65537"),
            Err(Expected::Number { limit: 65536 })
        )
    );
    assert!(rt; matches!(read("listed A 1 2 3"), Err(Expected::End)));
}
