use super::*;
use std::test::*;

#[test]
fn an_absent_id_is_the_uuid_of_the_length(rt: HostRuntime) -> Result<(), Fail> {
    let alloc = rt.alloc();
    // the history's length, and the UUID that Python's `uuid.uuid5` gives
    let cases = [
        (1, "11116e73-1c03-5de6-9130-5f9925ae8ab4"),
        (1000000, "e17514c4-2d63-5088-8361-ccab545e9ecf"),
    ];
    for (length, want) in cases {
        let id = made_id(alloc, length)?;
        assert_eq!(rt; id.as_str(), want, "on a history of {length}");
    }
    Ok(())
}
