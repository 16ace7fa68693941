//! Bodies of transactions on a map: what they see, what is recorded, and what they leave.

use super::{Row, map_of, ran, run_text};
use std::test::Fail;

const ROWS: &[Row<'static>] = &[("a", Some(10), 2), ("b", Some(5), 3), ("c", None, 4)];

#[test]
fn looks_are_recorded_once(rt: HostRuntime) -> Result<(), Fail> {
    let alloc = rt.alloc();
    let view = map_of(alloc, ROWS)?;
    // a body, and what it gives
    let cases = [
        ("", "null; reads; writes"),
        (
            r#"let x = get acct["a"]; let y = get acct["a"]; return x + y;"#,
            "20; reads acct/a@2; writes",
        ),
        (
            r#"let x = get acct["c"]; let y = get acct["d"]; return [x, y];"#,
            "[null,null]; reads acct/c@4 acct/d@0; writes",
        ),
        (
            r#"let r = scan acct["a", "b"]; let s = scan acct["a", "b"]; return r;"#,
            r#"[["a",10]]; reads acct/[a,b),a@2; writes"#,
        ),
        (
            r#"let r = scan acct["a", "d"]; let x = get acct["a"]; return len(r);"#,
            "2; reads acct/[a,d),a@2,b@3 acct/a@2; writes",
        ),
        (
            r#"let r = scan acct["z", "a"]; return r;"#,
            "[]; reads acct/[z,a); writes",
        ),
        (
            r#"let x = get acct["b"]; let y = get other["b"]; return [x, y];"#,
            "[5,null]; reads acct/b@3 other/b@0; writes",
        ),
    ];
    for (body, want) in cases {
        let text = format!(in alloc; "table acct; table other; txn f() {{ {body} }}")?;
        let run = ran(alloc, &text, "f", "[]", &view)?;
        assert_eq!(rt; run_text(alloc, &run)?.as_str(), want, "of {body}");
    }
    Ok(())
}

#[test]
fn a_body_sees_its_own_writes(rt: HostRuntime) -> Result<(), Fail> {
    let alloc = rt.alloc();
    let view = map_of(alloc, ROWS)?;
    // a body, and what it gives
    let cases = [
        (
            r#"put acct["a"] = 1; delete acct["b"]; let x = get acct["a"]; let y = get acct["b"]; return [x, y];"#,
            "[1,null]; reads; writes acct/a=1 acct/b-",
        ),
        (
            r#"let x = get acct["a"]; put acct["a"] = x + 1; let y = get acct["a"]; return y;"#,
            "11; reads acct/a@2; writes acct/a=11",
        ),
        (
            r#"put acct["b"] = 7; put acct["aa"] = 1; delete acct["a"]; let r = scan acct["a", "z"]; return r;"#,
            r#"[["aa",1],["b",7]]; reads acct/[a,z),a@2,b@3; writes acct/a- acct/aa=1 acct/b=7"#,
        ),
        (
            r#"put acct["b"] = 7; put acct["0"] = 0; put other["a"] = 1; let r = scan acct["a", "b"]; return r;"#,
            r#"[["a",10]]; reads acct/[a,b),a@2; writes acct/0=0 acct/b=7 other/a=1"#,
        ),
        (
            r#"let r = scan acct["a", "b"]; put acct["a"] = 1; let s = scan acct["a", "b"]; return [r, s];"#,
            r#"[[["a",10]],[["a",1]]]; reads acct/[a,b),a@2; writes acct/a=1"#,
        ),
        (
            r#"put acct["d"] = 1; delete acct["d"]; let r = scan acct["c", "z"]; return r;"#,
            "[]; reads acct/[c,z); writes acct/d-",
        ),
    ];
    for (body, want) in cases {
        let text = format!(in alloc; "table acct; table other; txn f() {{ {body} }}")?;
        let run = ran(alloc, &text, "f", "[]", &view)?;
        assert_eq!(rt; run_text(alloc, &run)?.as_str(), want, "of {body}");
    }
    Ok(())
}

#[test]
fn a_failed_body_has_no_writes_and_keeps_its_looks(rt: HostRuntime) -> Result<(), Fail> {
    let alloc = rt.alloc();
    let view = map_of(alloc, ROWS)?;
    // a body, and what it gives
    let cases = [
        (
            r#"let x = get acct["a"]; put acct["a"] = 0; fail "no";"#,
            "fails with no; reads acct/a@2; writes",
        ),
        (
            r#"put acct["a"] = 0; let r = scan acct["a", "b"]; return r - 1;"#,
            "fails with type; reads acct/[a,b),a@2; writes",
        ),
        // What a part left before its failure was caught stays.
        (
            r#"try { put acct["a"] = 1; fail "x"; } catch w { put acct["b"] = w; } return 0;"#,
            r#"0; reads; writes acct/a=1 acct/b="x""#,
        ),
        (
            r#"let i = 0; try { let x = get acct["a"]; set i = x; set i = 1 / 0; } catch w { return [i, w]; }"#,
            r#"[10,"zero"]; reads acct/a@2; writes"#,
        ),
        (
            r#"try { delete acct["a"]; fail "x"; } catch w { } fail "y";"#,
            "fails with y; reads; writes",
        ),
        (
            r#"put acct["a"] = 1; try { while true { } } catch w { return w; }"#,
            "fails with budget; reads; writes",
        ),
        // The value is evaluated before the key is tested, and `lo` is tested before `hi`.
        ("put acct[1] = 1 / 0;", "fails with zero; reads; writes"),
        ("put acct[1] = 1;", "fails with type; reads; writes"),
        ("delete acct[null];", "fails with type; reads; writes"),
        (
            "let x = get acct[[]]; return x;",
            "fails with type; reads; writes",
        ),
        (
            r#"let r = scan acct[1, "a" < 1]; return r;"#,
            "fails with type; reads; writes",
        ),
        (
            r#"let r = scan acct["a", 1 / 0]; return r;"#,
            "fails with zero; reads; writes",
        ),
    ];
    for (body, want) in cases {
        let text = format!(in alloc; "table acct; table other; txn f() {{ {body} }}")?;
        let run = ran(alloc, &text, "f", "[]", &view)?;
        assert_eq!(rt; run_text(alloc, &run)?.as_str(), want, "of {body}");
    }
    Ok(())
}
