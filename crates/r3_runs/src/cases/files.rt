//! Function files that are taken or refused, and command lines.

use super::{NONE, RUN, left_by};
use r3_gen::BANK;
use std::alloc::Global;
use std::test::Fail;

const CHECK: &[&str] = &["s", "check", "acct.fn"];

const TINY: &[u8] = b"table acct;";

#[test]
fn each_refusal_has_its_status_and_last_line(rt: HostRuntime) -> Result<(), Fail> {
    let usage = b"{\"fault\":\"usage\"}\n".as_slice();
    // words, function file, status, last line
    let cases = [
        (["s"].as_slice(), TINY, 2, usage),
        (&["s", "run"], TINY, 2, usage),
        (&["s", "run", "-f"], TINY, 2, usage),
        (&["", "run", "acct.fn"], TINY, 2, usage),
        (&["s", "trace"], TINY, 2, usage),
        (&["s", "recover", "acct.fn", "01"], TINY, 2, usage),
        (&["s", "recover", "acct.fn", "0"], TINY, 2, usage),
        (&["s", "run", "none.fn"], TINY, 6, b""),
        (
            RUN,
            b"table Acct;",
            7,
            b"{\"at\":6,\"fault\":\"functions\",\"kind\":\"lex\"}\n",
        ),
        (
            RUN,
            b"table acct",
            7,
            b"{\"at\":10,\"fault\":\"functions\",\"kind\":\"syntax\"}\n",
        ),
        (
            RUN,
            b"flow f() { return x; }",
            7,
            b"{\"fault\":\"functions\",\"item\":1,\"kind\":\"unbound\"}\n",
        ),
    ];
    for (words, text, status, last) in cases {
        let left = left_by(rt.alloc(), words, b"", text, b"", &NONE)?;
        assert_eq!(rt; left.status, status);
        assert_eq!(rt; left.said.as_slice(), last);
        assert_eq!(rt; left.desk.image().len(), 0);
    }
    Ok(())
}

#[test]
fn check_counts_the_items_of_each_kind(rt: HostRuntime) -> Result<(), Fail> {
    let counts =
        b"{\"flows\":8,\"helpers\":0,\"outsides\":1,\"queues\":1,\"tables\":1,\"txns\":3}\n";
    let left = left_by(rt.alloc(), CHECK, b"", BANK.as_bytes(), b"", &NONE)?;
    assert_eq!(rt; left.status, 0);
    assert_eq!(rt; left.said.as_slice(), counts.as_slice());
    assert_eq!(rt; left.desk.image().len(), 0);
    Ok(())
}

fn spaces(alloc: Global, count: usize) -> Result<Vec<u8>, Fail> {
    let mut text = Vec::new(alloc);
    text.resize(count, b' ')?;
    Ok(text)
}

#[test]
fn a_function_file_has_at_most_2_to_the_20_bytes(rt: HostRuntime) -> Result<(), Fail> {
    let none =
        b"{\"flows\":0,\"helpers\":0,\"outsides\":0,\"queues\":0,\"tables\":0,\"txns\":0}\n".as_slice();
    // bytes, status, what is said
    let cases = [
        (1 << 20, 0, none),
        ((1 << 20) + 1, 10, b"{\"fault\":\"long\"}\n"),
    ];
    for (count, status, said) in cases {
        let text = spaces(rt.alloc(), count)?;
        let left = left_by(rt.alloc(), CHECK, b"", &text, b"", &NONE)?;
        assert_eq!(rt; left.status, status);
        assert_eq!(rt; left.said.as_slice(), said);
    }
    Ok(())
}
