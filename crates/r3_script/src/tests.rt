//! What no clause says: calls succeed with ample memory. Scripts by hand, in which each cause comes.

use super::*;
use r3_desk::MemSource;
use std::alloc::Global;
use std::test::Fail;

// What a script answers until its end or a fault: each line with a bar behind it, and then the fault's letter.
fn answers(alloc: Global, script: &[u8], fails: &[u64]) -> Result<Vec<u8>, Fail> {
    let bytes = script.to_vec(alloc)?;
    let mut source = MemSource::new(bytes, fails.to_vec(alloc)?);
    let mut script = Script::new(alloc)?;
    let mut text = Vec::new(alloc);
    for _ in 0..100u32 {
        match script.next_line(&mut source) {
            Ok(true) => {
                text.extend_from_slice(script.line())?;
                text.push(b'|')?;
            }
            Ok(false) => return Ok(text),
            Err(ScriptFault::Source) => {
                text.push(b'S')?;
                return Ok(text);
            }
            Err(ScriptFault::TooLong) => {
                text.push(b'L')?;
                return Ok(text);
            }
            Err(ScriptFault::Memory) => return Err(Fail::from(ScriptFault::Memory)),
        }
    }
    Ok(text)
}

#[test]
fn lines_are_handed_out_in_order(rt: HostRuntime) -> Result<(), Fail> {
    // script, its lines
    let cases = [
        (b"".as_slice(), b"".as_slice()),
        (b"\n\n", b""),
        (b"a\nbc\n", b"a|bc|"),
        (b"a\nbc", b"a|bc|"),
        (b" \t\r\na \r\n\n\t", b"a \r|"),
    ];
    for (script, want) in cases {
        let got = answers(rt.alloc(), script, &[])?;
        assert_eq!(rt; got.as_slice(), want);
    }
    Ok(())
}

#[test]
fn a_fault_comes_after_the_lines_that_ended(rt: HostRuntime) -> Result<(), Fail> {
    let first = answers(rt.alloc(), b"a\nb\nc", &[1])?;
    assert_eq!(rt; first.as_slice(), b"S".as_slice());
    let second = answers(rt.alloc(), b"a\nb\nc", &[2])?;
    assert_eq!(rt; second.as_slice(), b"a|b|S".as_slice());
    Ok(())
}

#[test]
fn a_line_goes_on_over_two_reads(rt: HostRuntime) -> Result<(), Fail> {
    let alloc = rt.alloc();
    let mut bytes = vec![in alloc; b'x'; 70_000]?;
    bytes.extend_from_slice(b"\ny")?;
    let mut source = MemSource::new(bytes, Vec::new(alloc));
    let mut script = Script::new(alloc)?;
    assert!(rt; script.next_line(&mut source)?);
    assert_eq!(rt; script.line().len(), 70_000);
    assert!(rt; script.next_line(&mut source)?);
    assert_eq!(rt; script.line(), b"y".as_slice());
    assert!(rt; !script.next_line(&mut source)?);
    assert!(rt; !script.next_line(&mut source)?);
    Ok(())
}
