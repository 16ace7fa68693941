//! What the versions of a history tell as of an index.

use super::{LOAD, PROGRAM, STARTED, payload_of, read_with};
use crate::{flows_as_of, make_room, texts_between};
use r3_chain::Chains;
use r3_rows::{Cell, Key};
use r3_value::Txt;
use std::test::Fail;

#[test]
fn rows_and_workflows_are_told_as_of_an_index(rt: HostRuntime) -> Result<(), Fail> {
    let alloc = rt.alloc();
    let started = payload_of(alloc, &[STARTED])?;
    let read = read_with(alloc, &[PROGRAM, LOAD], started, true)??;
    // the index, the keys of acct, the workflows
    let cases = [(1, 0, 0), (2, 1, 0), (3, 1, 1)];
    for (index, rows, flows) in cases {
        let keys = texts_between(alloc, &read.chains, "acct", "a", "b", index)?;
        assert_eq!(rt; keys.len(), rows, "rows as of {index}");
        for (key, version) in keys.iter() {
            assert!(rt; key.as_str() == "a" && *version == 2, "as of {index}");
        }
        let ids = flows_as_of(alloc, &read.chains, index)?;
        assert_eq!(rt; ids.len(), flows, "workflows as of {index}");
        for id in ids.iter() {
            assert_eq!(rt; id.as_str(), "s1");
        }
    }
    Ok(())
}

#[test]
fn entries_or_program_texts_are_kept(rt: HostRuntime) -> Result<(), Fail> {
    let alloc = rt.alloc();
    let read = read_with(alloc, &[PROGRAM], payload_of(alloc, &[LOAD])?, true)??;
    assert_eq!(rt; (read.entries.len(), read.texts.len()), (2, 0));
    let read = read_with(alloc, &[PROGRAM], payload_of(alloc, &[LOAD])?, false)??;
    assert_eq!(rt; (read.entries.len(), read.texts.len()), (0, 1));
    for (number, text) in read.texts.iter() {
        assert!(rt; *number == 1 && text.as_str() == "table acct;");
    }
    Ok(())
}

#[test]
fn room_is_made_where_there_is_memory(rt: HostRuntime) -> Result<(), Fail> {
    let alloc = rt.alloc();
    let mut chains: Chains<Key, Cell> = Chains::new(alloc, 1);
    let mut keys = Vec::new(alloc);
    keys.push(Key::Flow {
        id: Txt::new(alloc, "s1")?,
    })?;
    assert!(rt; make_room(alloc, &mut chains, keys).is_ok());
    Ok(())
}
