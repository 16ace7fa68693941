//! Second runs over one store: recoveries, repeats and `recover`.

use super::history::acts_of;
use super::{NONE, RECOVER, RUN, answered, has_told, left_by};
use r3_gen::BANK;
use std::test::Fail;

// What a first run answers, and a second one over its store.
const REPEATED: [(&str, &str); 2] = [
    (
        r#"{"load":"acct","rows":{"a":10,"b":5,"c":0}}
{"start":"m1","fn":"move","args":["a","b",3]}
{"turn":"m1"}
{"start":"m1","fn":"move","args":["a","b",3]}
"#,
        r#"{"entry":2}
{"entry":3,"id":"m1"}
{"began":3}
{"entry":3,"id":"m1"}
"#,
    ),
    (
        r#"{"start":"m1","fn":"move","args":["a","b",3]}
{"drain":100}
{"start":"m1","fn":"move","args":["a","b",3]}
{"status":"m1"}
"#,
        r#"{"entry":3,"id":"m1"}
{"drain":"idle","turns":9}
{"entry":3,"id":"m1"}
{"args":["a","b",3],"attempts":1,"fn":"move","id":"m1","outcome":{"value":3},"parent":null,"queue":null,"started":3,"status":"SUCCESS"}
"#,
    ),
];

#[test]
fn a_start_is_answered_alike_before_and_after_a_restart(rt: HostRuntime) -> Result<(), Fail> {
    let [(script, replies), (again, repeated)] = REPEATED;
    let first = answered(&rt, rt.alloc(), BANK, b"", script.as_bytes(), replies)?;
    let image = first.desk.image();
    let second = answered(&rt, rt.alloc(), BANK, image, again.as_bytes(), repeated)?;
    assert_eq!(rt; first.asked, 0);
    assert!(rt; has_told(rt.alloc(), &second.desk, &["m1"])?);
    let acts = acts_of(rt.alloc(), second.desk.image())?;
    assert_eq!(rt;
        acts.as_str(),
        "program load start recover txn outside finish "
    );
    Ok(())
}

#[test]
fn recover_drains_what_was_left(rt: HostRuntime) -> Result<(), Fail> {
    let [(script, _), _] = REPEATED;
    let first = left_by(
        rt.alloc(),
        RUN,
        b"",
        BANK.as_bytes(),
        script.as_bytes(),
        &NONE,
    )?;
    // turns, what is said
    let cases = [
        (RECOVER, "{\"drain\":\"idle\",\"turns\":9}\n"),
        (
            &["s", "recover", "acct.fn", "3"],
            "{\"drain\":\"spent\",\"turns\":3}\n",
        ),
    ];
    for (words, said) in cases {
        let left = left_by(
            rt.alloc(),
            words,
            first.desk.image(),
            BANK.as_bytes(),
            b"",
            &NONE,
        )?;
        assert_eq!(rt; left.status, 0);
        assert_eq!(rt; left.said.as_slice(), said.as_bytes());
    }
    Ok(())
}

// A workflow that waits for another, and nothing else.
const WAITING: &str = "queue mail 1; flow wait(me) { let r = await me; return r; }";

const STATUS: &[u8] = b"{\"status\":\"w1\"}\n";

// What such a workflow answers: it has entry 2, and each of its 51 recoveries has one.
const OUT_OF_ATTEMPTS: (&str, &str) = (
    r#"{"turn":"w1"}
{"cancel":"w1"}
{"start":"w2","fn":"wait","args":["w1"]}
{"turn":"w2"}
{"turn":"w2"}
{"status":"w2"}
{"resume":"w1"}
{"status":"w1"}
"#,
    r#"{"none":"MAX_RECOVERY_ATTEMPTS_EXCEEDED"}
{"refused":"status","status":"MAX_RECOVERY_ATTEMPTS_EXCEEDED"}
{"entry":54,"id":"w2"}
{"entry":55}
{"entry":56}
{"args":["w1"],"attempts":0,"fn":"wait","id":"w2","outcome":{"failure":"attempts"},"parent":null,"queue":null,"started":54,"status":"ERROR"}
{"entry":57}
{"args":["w1"],"attempts":0,"fn":"wait","id":"w1","outcome":null,"parent":null,"queue":null,"started":2,"status":"PENDING"}
"#,
);

#[test]
fn a_workflow_is_recovered_fifty_times(rt: HostRuntime) -> Result<(), Fail> {
    let alloc = rt.alloc();
    let start = b"{\"start\":\"w1\",\"fn\":\"wait\",\"args\":[\"w1\"]}\n{\"turn\":\"w1\"}\n";
    let replies = "{\"entry\":2,\"id\":\"w1\"}\n{\"waiting\":\"w1\"}\n";
    let first = answered(&rt, alloc, WAITING, b"", start, replies)?;
    let mut image = first.desk.image().to_vec(alloc)?;
    for run in 1..=52_u32 {
        let (attempts, status) = match run {
            1..=50 => (run, "PENDING"),
            _ => (51, "MAX_RECOVERY_ATTEMPTS_EXCEEDED"),
        };
        let row = format!(in alloc;
            "{{\"args\":[\"w1\"],\"attempts\":{attempts},\"fn\":\"wait\",\"id\":\"w1\",\"outcome\":null,\"parent\":null,\"queue\":null,\"started\":2,\"status\":\"{status}\"}}\n"
        )?;
        let left = answered(&rt, alloc, WAITING, &image, STATUS, row.as_str())?;
        assert_eq!(rt;
            left.desk.image() == image.as_slice(),
            run == 52,
            "run {run}"
        );
        image = left.desk.image().to_vec(alloc)?;
    }
    let (script, replies) = OUT_OF_ATTEMPTS;
    answered(&rt, alloc, WAITING, &image, script.as_bytes(), replies)?;
    Ok(())
}
