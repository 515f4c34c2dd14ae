// Bad settings, and refusals as an operator reads them.
use crate::component::ComponentId;
use crate::profile::ProfileLine;
use crate::refusal::{Refusal, Setting};
use crate::settings::{Draft, Settings};
use std::alloc::Global;
use std::test::Fail;

// `count` identifiers of one kind.
fn identifiers(heap: Global, count: u8, kind: u8) -> Result<Vec<ComponentId>, Fail> {
    let mut listed = Vec::new(heap);
    for code in 0..count {
        listed.push(ComponentId { kind, code })?;
    }
    Ok(listed)
}

// `count` lines of one PPI and level.
fn lines(heap: Global, count: u8, level: u8) -> Result<Vec<ProfileLine>, Fail> {
    let mut profile = Vec::new(heap);
    for code in 0..count {
        profile.push(ProfileLine {
            ppi: 7,
            code,
            level,
        })?;
    }
    Ok(profile)
}

// Settings that are 0 or not allowed but for these lists.
fn with_lists(listed: Vec<ComponentId>, profile: Vec<ProfileLine>) -> Draft {
    Draft {
        own: 0,
        ne_id: 0,
        back: 0,
        ahead: 0,
        fallback: false,
        listed,
        profile,
    }
}

// The place of the refusal, 0 where the settings are taken, so that a case is one row of numbers.
fn place(answer: Result<Settings, Refusal>) -> usize {
    match answer {
        Ok(_) => 0,
        Err(refusal) => refusal.place(),
    }
}

// Each number at its bound, one past it and far past it.
#[test]
fn numbers_at_their_bounds(rt: HostRuntime) {
    let cases = [
        (16_777_215, 281_474_976_710_655, 6_000, 600, 0),
        (16_777_216, 281_474_976_710_656, 6_001, 601, 1),
        (u32::MAX, 0, 0, 0, 1),
        (0, 281_474_976_710_656, 6_001, 601, 2),
        (0, u64::MAX, 0, 0, 2),
        (0, 0, 6_001, 601, 3),
        (0, 0, u64::MAX, 0, 3),
        (0, 0, 0, 601, 4),
        (0, 0, 0, u64::MAX, 4),
        (0, 0, 0, 0, 0),
    ];
    for (own, ne_id, back, ahead, expected) in cases {
        let heap = rt.alloc();
        assert_eq!(rt;
            place(Settings::new(Draft {
                own,
                ne_id,
                back,
                ahead,
                fallback: true,
                listed: Vec::new(heap),
                profile: Vec::new(heap),
            })),
            expected
        );
    }
}

// 64 and 65 identifiers and lines, and kinds and levels at their bounds and past them.
#[test]
fn lists_at_their_bounds(rt: HostRuntime) -> Result<(), Fail> {
    let cases = [
        (64, 1, 64, 1, 0),
        (65, 1, 65, 1, 6),
        (64, 3, 64, 6, 0),
        (1, 0, 65, 0, 6),
        (1, 4, 0, 1, 6),
        (1, 255, 0, 1, 6),
        (64, 2, 65, 1, 7),
        (0, 1, 1, 0, 7),
        (0, 1, 1, 7, 7),
        (0, 1, 1, 255, 7),
    ];
    for (listed, kind, profile, level, expected) in cases {
        let heap = rt.alloc();
        assert_eq!(rt;
            place(Settings::new(with_lists(
                identifiers(heap, listed, kind)?,
                lines(heap, profile, level)?,
            ))),
            expected
        );
    }
    Ok(())
}

// Two lines of one PPI and code: the repeated one first, in the middle and last.
#[test]
fn lines_repeated(rt: HostRuntime) -> Result<(), Fail> {
    let heap = rt.alloc();
    for code in [0, 15, 31] {
        let mut profile = lines(heap, 32, 2)?;
        profile.push(ProfileLine {
            ppi: 8,
            code,
            level: 2,
        })?;
        assert_eq!(rt;
            place(Settings::new(with_lists(Vec::new(heap), profile))),
            0
        );
        let mut profile = lines(heap, 32, 2)?;
        profile.push(ProfileLine {
            ppi: 7,
            code,
            level: 2,
        })?;
        assert_eq!(rt;
            place(Settings::new(with_lists(Vec::new(heap), profile))),
            7
        );
    }
    Ok(())
}

#[test]
fn refusals_in_words(rt: HostRuntime) -> Result<(), Fail> {
    let heap = rt.alloc();
    let wrong = Refusal::WrongSetting {
        setting: Setting::Back,
    };
    assert_eq!(rt; (wrong.number(), wrong.layer(), wrong.place()), (61, 6, 3));
    assert_eq!(rt;
        format!(in heap; "{wrong}")?.as_str(),
        "wrong setting: back is 0 to 6000 ticks"
    );
    let short = Refusal::OutputTooShort { needed: 30 };
    assert_eq!(rt;
        format!(in heap; "{short}")?.as_str(),
        "the output is too short: 30 octets are needed"
    );
    Ok(())
}
