//! The system behind the environment: each call on a real file, on standard output and on standard input.

use super::*;
use r3_desk::{AskFault, Desk, DiskFault, Shelf, ShelfFault, Source};
use r3_value::{Outcome, Txt, Val};
use std::fs;
use std::test::Fail;

#[test]
fn a_file_is_made_at_the_first_call_on_the_disk(rt: HostRuntime) -> Result<(), Fail> {
    let alloc = rt.alloc();
    let mut desk = HostDesk::at(rt, alloc, "made")?;
    assert!(rt; fs::metadata(&rt, "made").is_err());
    assert_eq!(rt; desk.len(), Ok(0));
    assert!(rt; fs::metadata(&rt, "made").is_ok());
    fs::remove_file(&rt, "made")?;
    Ok(())
}

#[test]
fn a_file_has_what_was_written(rt: HostRuntime) -> Result<(), Fail> {
    let alloc = rt.alloc();
    let mut desk = HostDesk::at(rt, alloc, "written")?;
    assert_eq!(rt; desk.write_at(0, b"abcdef"), Ok(()));
    assert_eq!(rt; desk.write_at(4, b"XYZ"), Ok(()));
    assert_eq!(rt; desk.sync(), Ok(()));
    let mut desk = HostDesk::at(rt, alloc, "written")?;
    assert_eq!(rt; desk.len(), Ok(7));
    let mut part = [0u8; 4];
    assert_eq!(rt; desk.read(3, &mut part), Ok(4));
    assert_eq!(rt; part, *b"dXYZ");
    assert_eq!(rt; desk.read(6, &mut part), Ok(1));
    assert_eq!(rt; part, *b"ZXYZ");
    assert_eq!(rt; desk.read(7, &mut part), Ok(0));
    fs::remove_file(&rt, "written")?;
    Ok(())
}

#[test]
fn a_disk_in_no_folder_fails(rt: HostRuntime) -> Result<(), Fail> {
    let alloc = rt.alloc();
    let mut desk = HostDesk::at(rt, alloc, "none/store")?;
    assert_eq!(rt; desk.sync(), Err(DiskFault));
    assert_eq!(rt; desk.len(), Err(DiskFault));
    // the output doesn't need it
    assert_eq!(rt; desk.say(b"said\n"), Ok(()));
    assert_eq!(rt;
        desk.ask("m1", 1, "notify", &Val::Null).err(),
        Some(AskFault::Fault)
    );
    Ok(())
}

#[test]
fn calls_are_written_and_answers_read_in_order(rt: HostRuntime) -> Result<(), Fail> {
    let alloc = rt.alloc();
    fs::write(
        &rt,
        "asked.in",
        "{\"value\":7}\nno answer\n\n{\"value\":1,\"failure\":\"both\"}\n{\"failure\":\"gone\"}",
    )?;
    let mut desk = HostDesk::at(rt, alloc, "asked")?;
    assert!(rt;
        desk.ask("m1", 1, "notify", &Val::Int(3))?
            .same(&Outcome::Value(Val::Int(7)))
    );
    // a line that is no answer is passed over, as are a blank one and one with two keys
    for _ in 0..3 {
        assert_eq!(rt;
            desk.ask("m1", 2, "pay", &Val::Null).err(),
            Some(AskFault::Fault)
        );
    }
    let gone = Outcome::Failure(Txt::new(alloc, "gone")?);
    assert!(rt; desk.ask("m1", 2, "pay", &Val::Null)?.same(&gone));
    // the answers have ended
    assert_eq!(rt;
        desk.ask("m1", 3, "pay", &Val::Null).err(),
        Some(AskFault::Fault)
    );
    let calls = fs::read_to_string(&rt, "asked.out")?;
    assert_eq!(rt; calls.as_str().lines().count(), 6);
    assert_eq!(rt;
        calls.as_str().lines().next(),
        Some("{\"args\":3,\"id\":\"m1\",\"n\":1,\"name\":\"notify\"}")
    );
    fs::remove_file(&rt, "asked.in")?;
    fs::remove_file(&rt, "asked.out")?;
    Ok(())
}

#[test]
fn standard_input_ends(rt: HostRuntime) {
    let mut source = HostSource::new(&rt);
    let mut part = [0u8; 4];
    assert_eq!(rt; source.read(&mut part), Ok(0));
    assert_eq!(rt; source.read(&mut part), Ok(0));
}

#[test]
fn a_text_is_read_whole_within_its_limit(rt: HostRuntime) -> Result<(), Fail> {
    let alloc = rt.alloc();
    let text = vec![in alloc; b'x'; 5000]?;
    fs::write(&rt, "text", text.as_slice())?;
    let mut shelf = HostShelf::new(rt);
    let got = shelf.text(alloc, "text", 5000)?;
    assert_eq!(rt; got.as_slice(), text.as_slice());
    assert_eq!(rt;
        shelf.text(alloc, "text", 4999).err(),
        Some(ShelfFault::TooLong)
    );
    assert_eq!(rt;
        shelf.text(alloc, "none", 5000).err(),
        Some(ShelfFault::Fault)
    );
    fs::remove_file(&rt, "text")?;
    Ok(())
}
