// Lines that cannot be read.
use complaints::Complaint;
use statements::statement::read_statement;
use std::alloc::{AllocError, Global};
use std::test::Fail;

// What is said of a line; nothing, where it is read.
fn said(heap: Global, line: &str) -> Result<String, AllocError> {
    let line = line.as_bytes();
    match read_statement(line) {
        Ok(_) => Ok(String::new(heap)),
        Err(fault) => {
            let complaint = Complaint { line, fault };
            format!(in heap; "{complaint}")
        }
    }
}

#[test]
fn faults_are_told(rt: HostRuntime) -> Result<(), Fail> {
    let cases = [
        ("# nothing else", ""),
        ("A plain 1 2 3 yes", ""),
        (
            "bogus",
            "found 'bogus', expected station, listed, profile, A or B",
        ),
        ("station A own 1 back 3", "found 'back', expected 'ne'"),
        (
            "listed A 256 2",
            "found '256', expected a number up to 255, decimal or 0x..",
        ),
        ("listed A 1 2 3", "found '3', expected nothing more"),
        (
            "A admits 1 2",
            "found 'admits', expected admit, install, revoke, protect, receive or plain",
        ),
        (
            "A install 1 2 3 4 1 abcd",
            "found 'abcd', expected a key of 32 hexadecimal digits",
        ),
        (
            "A receive 1 2 maybe @1 5",
            "found 'maybe', expected yes or no",
        ),
        (
            "A receive 1 2 no @1 65537",
            "found '65537', expected a number up to 65536, decimal or 0x..",
        ),
        (
            "A plain 1 256 3 yes -",
            "found '256', expected a number up to 255, decimal or 0x..",
        ),
        ("A plain 1 2 3 yes - 4", "found '4', expected nothing more"),
        (
            "A plain 1 2 3",
            "found the end of the line, expected yes or no",
        ),
    ];
    for (line, expected) in cases {
        assert_eq!(rt; said(rt.alloc(), line)?.as_str(), expected);
    }
    Ok(())
}
