//! Workflows, queues and refusals: scripts over a store that isn't there yet, each with all of its replies.

use super::{answered, has_told};
use r3_gen::BANK;
use std::test::Fail;

// A transfer in two steps, the second outside; what follows it; and two forks of it.
const TRANSFER: (&str, &str) = (
    r#"{"load":"acct","rows":{"a":10,"b":5,"c":0}}
{"start":"m1","fn":"move","args":["a","b",3]}
{"turn":"m1"}
{"turn":"m1"}
{"turn":"m1"}
{"turn":"m1"}
{"turn":"m1"}
{"status":"m1"}
{"get":"acct","key":"a"}
{"start":"m1","fn":"send","args":["a","b",1]}
{"fork":"m1","step":1,"to":"m2"}
{"turn":"m2"}
{"turn":"m2"}
{"get":"acct","key":"a"}
{"fork":"m1","step":3,"to":"m3"}
"#,
    r#"{"entry":2}
{"entry":3,"id":"m1"}
{"began":3}
{"entry":4}
{"entry":5}
{"entry":6}
{"none":"SUCCESS"}
{"args":["a","b",3],"attempts":0,"fn":"move","id":"m1","outcome":{"value":3},"parent":null,"queue":null,"started":3,"status":"SUCCESS"}
{"value":7}
{"refused":"conflict"}
{"entry":7,"id":"m2"}
{"entry":8}
{"entry":9}
{"value":7}
{"refused":"step"}
"#,
);

// Two transfers from one account: the second conflicts with the first, and is tried again.
const CONFLICT: (&str, &str) = (
    r#"{"load":"acct","rows":{"a":10,"b":5,"c":0}}
{"start":"s1","fn":"send","args":["a","b",3]}
{"start":"s2","fn":"send","args":["a","c",4]}
{"turn":"s1"}
{"turn":"s2"}
{"turn":"s1"}
{"turn":"s2"}
{"turn":"s2"}
{"turn":"s2"}
{"get":"acct","key":"a"}
"#,
    r#"{"entry":2}
{"entry":3,"id":"s1"}
{"entry":4,"id":"s2"}
{"began":4}
{"began":4}
{"entry":5}
{"conflict":5}
{"began":5}
{"entry":6}
{"value":3}
"#,
);

// Two withdrawals that read what the other writes: both are committed on one snapshot.
const WRITE_SKEW: (&str, &str) = (
    r#"{"load":"acct","rows":{"a":10,"b":5,"c":0}}
{"start":"d1","fn":"draw","args":["a","b",12]}
{"start":"d2","fn":"draw","args":["b","a",12]}
{"turn":"d1"}
{"turn":"d2"}
{"turn":"d1"}
{"turn":"d2"}
{"get":"acct","key":"a"}
{"get":"acct","key":"b"}
"#,
    r#"{"entry":2}
{"entry":3,"id":"d1"}
{"entry":4,"id":"d2"}
{"began":4}
{"began":4}
{"entry":5}
{"entry":6}
{"value":-2}
{"value":-7}
"#,
);

// As many rows as one transaction may write, and one more.
const FILLED: (&str, &str) = (
    r#"{"start":"f1","fn":"fills","args":[1024]}
{"drain":100}
{"get":"acct","key":"k1023"}
"#,
    r#"{"entry":2,"id":"f1"}
{"drain":"idle","turns":7}
{"value":1023}
"#,
);

const OVERFILLED: (&str, &str) = (
    r#"{"start":"f1","fn":"fills","args":[1025]}
{"drain":100}
{"status":"f1"}
{"get":"acct","key":"k0"}
"#,
    r#"{"entry":2,"id":"f1"}
{"drain":"idle","turns":7}
{"args":[1025],"attempts":0,"fn":"fills","id":"f1","outcome":{"failure":"size"},"parent":null,"queue":null,"started":2,"status":"ERROR"}
{"absent":true}
"#,
);

// A failure that is caught, and one that can't be.
const FAILURES: (&str, &str) = (
    r#"{"start":"o1","fn":"odd","args":[1]}
{"turn":"o1"}
{"status":"o1"}
{"start":"o2","fn":"spin","args":[0]}
{"turn":"o2"}
{"status":"o2"}
"#,
    r#"{"entry":2,"id":"o1"}
{"entry":3}
{"args":[1],"attempts":0,"fn":"odd","id":"o1","outcome":{"value":"overflow"},"parent":null,"queue":null,"started":2,"status":"SUCCESS"}
{"entry":4,"id":"o2"}
{"entry":5}
{"args":[0],"attempts":0,"fn":"spin","id":"o2","outcome":{"failure":"budget"},"parent":null,"queue":null,"started":4,"status":"ERROR"}
"#,
);

// A queue that runs one workflow at a time.
const QUEUE: (&str, &str) = (
    r#"{"load":"acct","rows":{"a":10,"b":5,"c":0}}
{"dequeue":"mail"}
{"enqueue":"e1","queue":"mail","fn":"send","args":["a","b",1]}
{"enqueue":"e2","queue":"mail","fn":"send","args":["a","b",1]}
{"enqueue":"e3","queue":"mail","fn":"send","args":["a","b",1]}
{"dequeue":"mail"}
{"dequeue":"mail"}
{"turn":"e1"}
{"turn":"e1"}
{"turn":"e1"}
{"dequeue":"mail"}
{"dequeue":"post_box"}
"#,
    r#"{"entry":2}
{"empty":true}
{"entry":3,"id":"e1"}
{"entry":4,"id":"e2"}
{"entry":5,"id":"e3"}
{"entry":6,"id":"e1"}
{"limit":1}
{"began":6}
{"entry":7}
{"entry":8}
{"entry":9,"id":"e2"}
{"refused":"unknown_queue"}
"#,
);

// A workflow that awaits itself, and a drain that comes to no end of its work.
const WAITS: (&str, &str) = (
    r#"{"start":"w1","fn":"wait","args":["w1"]}
{"turn":"w1"}
{"drain":100}
"#,
    r#"{"entry":2,"id":"w1"}
{"waiting":"w1"}
{"drain":"idle","turns":2}
"#,
);

const SPENT: (&str, &str) = (
    r#"{"load":"acct","rows":{"a":10,"b":5,"c":0}}
{"start":"m1","fn":"move","args":["a","b",3]}
{"drain":3}
"#,
    r#"{"entry":2}
{"entry":3,"id":"m1"}
{"drain":"spent","turns":3}
"#,
);

const REFUSED: (&str, &str) = (
    r#"{"start":"x","fn":"move","args":[1.5]}
{
{"load":"acct","rows":{"a":10,"b":5,"c":0}}
{"load":"none","rows":{"a":1}}
{"start":"x","fn":"move","args":["a"]}
{"turn":"x"}
{"start":"","fn":"move","args":[]}
{"start":"x","fn":"pay","args":["a","b",1]}
"#,
    r#"{"refused":"command"}
{"refused":"syntax"}
{"entry":2}
{"refused":"unknown_table"}
{"refused":"arity"}
{"refused":"unknown_id"}
{"refused":"id"}
{"refused":"unknown_function"}
"#,
);

// A workflow that starts another one and awaits it.
const CHILD: (&str, &str) = (
    r#"{"load":"acct","rows":{"a":10,"b":5,"c":0}}
{"start":"p1","fn":"both","args":["a","b",3]}
{"turn":"p1"}
{"turn":"p1"}
{"turn":"p1-0"}
{"turn":"p1-0"}
{"turn":"p1-0"}
{"turn":"p1"}
{"turn":"p1"}
{"status":"p1"}
{"status":"p1-0"}
"#,
    r#"{"entry":2}
{"entry":3,"id":"p1"}
{"entry":4}
{"waiting":"p1-0"}
{"began":4}
{"entry":5}
{"entry":6}
{"entry":7}
{"entry":8}
{"args":["a","b",3],"attempts":0,"fn":"both","id":"p1","outcome":{"value":3},"parent":null,"queue":null,"started":3,"status":"SUCCESS"}
{"args":["a","b",3],"attempts":0,"fn":"send","id":"p1-0","outcome":{"value":3},"parent":"p1","queue":null,"started":4,"status":"SUCCESS"}
"#,
);

// A child whose ID stands there already: under another function it is a failure, and else it is taken as it is.
const ADOPTED: (&str, &str) = (
    r#"{"start":"p1-0","fn":"odd","args":[1]}
{"start":"p1","fn":"both","args":["a","b",3]}
{"turn":"p1"}
{"turn":"p1"}
{"status":"p1"}
{"turn":"p1-0"}
{"load":"acct","rows":{"a":10,"b":5,"c":0}}
{"start":"p2-0","fn":"send","args":["a","c",1]}
{"start":"p2","fn":"both","args":["a","b",3]}
{"turn":"p2"}
{"turn":"p2"}
{"drain":100}
{"status":"p2"}
{"status":"p2-0"}
{"get":"acct","key":"a"}
"#,
    r#"{"entry":2,"id":"p1-0"}
{"entry":3,"id":"p1"}
{"entry":4}
{"entry":5}
{"args":["a","b",3],"attempts":0,"fn":"both","id":"p1","outcome":{"failure":"conflict"},"parent":null,"queue":null,"started":3,"status":"ERROR"}
{"entry":6}
{"entry":7}
{"entry":8,"id":"p2-0"}
{"entry":9,"id":"p2"}
{"entry":10}
{"waiting":"p2-0"}
{"drain":"idle","turns":12}
{"args":["a","b",3],"attempts":0,"fn":"both","id":"p2","outcome":{"value":1},"parent":null,"queue":null,"started":9,"status":"SUCCESS"}
{"args":["a","c",1],"attempts":0,"fn":"send","id":"p2-0","outcome":{"value":1},"parent":null,"queue":null,"started":8,"status":"SUCCESS"}
{"value":9}
"#,
);

// What an await gives where there is no such workflow, where it has failed, and where it was cancelled.
const AWAITS: (&str, &str) = (
    r#"{"start":"w1","fn":"wait","args":["none"]}
{"turn":"w1"}
{"turn":"w1"}
{"status":"w1"}
{"start":"w2","fn":"wait","args":["w1"]}
{"turn":"w2"}
{"turn":"w2"}
{"status":"w2"}
{"start":"w3","fn":"wait","args":["w3"]}
{"cancel":"w3"}
{"start":"w4","fn":"wait","args":["w3"]}
{"turn":"w4"}
{"turn":"w4"}
{"status":"w4"}
"#,
    r#"{"entry":2,"id":"w1"}
{"entry":3}
{"entry":4}
{"args":["none"],"attempts":0,"fn":"wait","id":"w1","outcome":{"failure":"unknown_id"},"parent":null,"queue":null,"started":2,"status":"ERROR"}
{"entry":5,"id":"w2"}
{"entry":6}
{"entry":7}
{"args":["w1"],"attempts":0,"fn":"wait","id":"w2","outcome":{"failure":"unknown_id"},"parent":null,"queue":null,"started":5,"status":"ERROR"}
{"entry":8,"id":"w3"}
{"entry":9}
{"entry":10,"id":"w4"}
{"entry":11}
{"entry":12}
{"args":["w3"],"attempts":0,"fn":"wait","id":"w4","outcome":{"failure":"cancelled"},"parent":null,"queue":null,"started":10,"status":"ERROR"}
"#,
);

// A transaction that fails is recorded, writes nothing and conflicts with nothing.
const SHORT: (&str, &str) = (
    r#"{"load":"acct","rows":{"a":10,"b":5,"c":0}}
{"start":"d1","fn":"draw","args":["a","b",16]}
{"start":"s1","fn":"send","args":["a","b",1]}
{"turn":"d1"}
{"turn":"s1"}
{"turn":"s1"}
{"turn":"d1"}
{"turn":"d1"}
{"status":"d1"}
{"get":"acct","key":"a"}
"#,
    r#"{"entry":2}
{"entry":3,"id":"d1"}
{"entry":4,"id":"s1"}
{"began":4}
{"began":4}
{"entry":5}
{"entry":6}
{"entry":7}
{"args":["a","b",16],"attempts":0,"fn":"draw","id":"d1","outcome":{"failure":"short"},"parent":null,"queue":null,"started":3,"status":"ERROR"}
{"value":9}
"#,
);

const CANCELLED: (&str, &str) = (
    r#"{"load":"acct","rows":{"a":10,"b":5,"c":0}}
{"start":"s1","fn":"send","args":["a","b",3]}
{"turn":"s1"}
{"cancel":"s1"}
{"turn":"s1"}
{"cancel":"s1"}
{"resume":"s1"}
{"turn":"s1"}
{"turn":"s1"}
"#,
    r#"{"entry":2}
{"entry":3,"id":"s1"}
{"began":3}
{"entry":4}
{"none":"CANCELLED"}
{"refused":"status","status":"CANCELLED"}
{"entry":5}
{"began":5}
{"entry":6}
"#,
);

const SCRIPTS: &[(&str, &str)] = &[
    TRANSFER, CONFLICT, WRITE_SKEW, FILLED, OVERFILLED, FAILURES, QUEUE, WAITS, SPENT, REFUSED,
    CHILD, ADOPTED, AWAITS, SHORT, CANCELLED,
];

#[test]
fn each_line_has_its_reply(rt: HostRuntime) -> Result<(), Fail> {
    for (script, replies) in SCRIPTS {
        answered(&rt, rt.alloc(), BANK, b"", script.as_bytes(), replies)?;
    }
    Ok(())
}

#[test]
fn the_outside_is_asked_once_for_each_step(rt: HostRuntime) -> Result<(), Fail> {
    let (script, replies) = TRANSFER;
    let left = answered(&rt, rt.alloc(), BANK, b"", script.as_bytes(), replies)?;
    // Of the first workflow, and of its fork from the step.
    assert!(rt; has_told(rt.alloc(), &left.desk, &["m1", "m2"])?);
    Ok(())
}
