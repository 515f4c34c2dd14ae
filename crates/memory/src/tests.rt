// Memory as it was asked for.
use crate::{Memory, Places};
use std::test::Fail;

#[test]
fn as_many_places(rt: HostRuntime) -> Result<(), Fail> {
    let mut memory = Memory::new(
        rt.alloc(),
        Places {
            policies: 1,
            associations: 2,
            heard: 3,
        },
    )?;
    let room = memory.room();
    assert_eq!(rt; room.policies.len(), 1);
    assert_eq!(rt; room.associations.len(), 2);
    assert_eq!(rt; room.heard.len(), 3);
    Ok(())
}
