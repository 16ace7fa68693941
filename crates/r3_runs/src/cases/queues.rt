//! Queues with their bounds: what they start, what frees a place, and drains over several of them.

use super::{TINY, answered};
use std::test::Fail;

const QUEUES: &str = "queue one 1; queue two 2; flow done(n) { return n; }
flow waits(id) { let r = await id; return r; }";

// The first enqueued comes first, whatever its ID. Who ends, or is cancelled, frees its place.
const BOUNDS: (&str, &str) = (
    r#"{"enqueue":"z","queue":"two","fn":"done","args":[1]}
{"enqueue":"y","queue":"two","fn":"done","args":[2]}
{"enqueue":"x","queue":"two","fn":"done","args":[3]}
{"enqueue":"w","queue":"one","fn":"done","args":[4]}
{"turn":"z"}
{"dequeue":"two"}
{"dequeue":"two"}
{"dequeue":"two"}
{"dequeue":"one"}
{"dequeue":"one"}
{"turn":"y"}
{"status":"y"}
{"dequeue":"two"}
{"dequeue":"two"}
{"cancel":"z"}
{"dequeue":"two"}
{"dequeue":"three"}
"#,
    r#"{"entry":2,"id":"z"}
{"entry":3,"id":"y"}
{"entry":4,"id":"x"}
{"entry":5,"id":"w"}
{"none":"ENQUEUED"}
{"entry":6,"id":"z"}
{"entry":7,"id":"y"}
{"limit":2}
{"entry":8,"id":"w"}
{"limit":1}
{"entry":9}
{"args":[2],"attempts":0,"fn":"done","id":"y","outcome":{"value":2},"parent":null,"queue":"two","started":3,"status":"SUCCESS"}
{"entry":10,"id":"x"}
{"limit":2}
{"entry":11}
{"empty":true}
{"refused":"unknown_queue"}
"#,
);

// A cancelled workflow isn't started, and one that is resumed stands in no queue. Its request comes again all the same.
const RESUMED: (&str, &str) = (
    r#"{"enqueue":"a","queue":"one","fn":"done","args":[1]}
{"enqueue":"b","queue":"one","fn":"done","args":[2]}
{"cancel":"a"}
{"dequeue":"one"}
{"resume":"a"}
{"status":"a"}
{"status":"b"}
{"turn":"b"}
{"dequeue":"one"}
{"turn":"a"}
{"enqueue":"a","queue":"two","fn":"done","args":[1]}
{"dequeue":"two"}
"#,
    r#"{"entry":2,"id":"a"}
{"entry":3,"id":"b"}
{"entry":4}
{"entry":5,"id":"b"}
{"entry":6}
{"args":[1],"attempts":0,"fn":"done","id":"a","outcome":null,"parent":null,"queue":null,"started":2,"status":"PENDING"}
{"args":[2],"attempts":0,"fn":"done","id":"b","outcome":null,"parent":null,"queue":"one","started":3,"status":"PENDING"}
{"entry":7}
{"empty":true}
{"entry":8}
{"entry":2,"id":"a"}
{"empty":true}
"#,
);

// A round dequeues once from each queue, in the order in which they are declared, and gives what it started a turn. A
// drain that is spent within a round forgets it.
const ROUNDS: (&str, &str) = (
    r#"{"enqueue":"a1","queue":"one","fn":"done","args":[1]}
{"enqueue":"a2","queue":"one","fn":"done","args":[2]}
{"enqueue":"b1","queue":"two","fn":"done","args":[3]}
{"enqueue":"b2","queue":"two","fn":"done","args":[4]}
{"enqueue":"b3","queue":"two","fn":"done","args":[5]}
{"drain":3}
{"turn":"a1"}
{"status":"b1"}
{"drain":1}
{"status":"a2"}
{"turn":"b2"}
{"drain":100}
{"drain":100}
{"enqueue":"a1","queue":"one","fn":"waits","args":["x"]}
{"enqueue":"a3","queue":"one","fn":"done","args":[6]}
"#,
    r#"{"entry":2,"id":"a1"}
{"entry":3,"id":"a2"}
{"entry":4,"id":"b1"}
{"entry":5,"id":"b2"}
{"entry":6,"id":"b3"}
{"drain":"spent","turns":3}
{"none":"SUCCESS"}
{"args":[3],"attempts":0,"fn":"done","id":"b1","outcome":null,"parent":null,"queue":"two","started":4,"status":"PENDING"}
{"drain":"spent","turns":1}
{"args":[2],"attempts":0,"fn":"done","id":"a2","outcome":null,"parent":null,"queue":"one","started":3,"status":"PENDING"}
{"none":"ENQUEUED"}
{"drain":"idle","turns":10}
{"drain":"idle","turns":2}
{"refused":"conflict"}
{"entry":17,"id":"a3"}
"#,
);

// The first of the queue waits for the one behind it, so its place stays taken.
const BLOCKED: (&str, &str) = (
    r#"{"enqueue":"a","queue":"one","fn":"waits","args":["b"]}
{"enqueue":"b","queue":"one","fn":"done","args":[1]}
{"drain":100}
{"dequeue":"one"}
{"turn":"a"}
{"cancel":"b"}
{"drain":100}
{"status":"a"}
"#,
    r#"{"entry":2,"id":"a"}
{"entry":3,"id":"b"}
{"drain":"idle","turns":6}
{"limit":1}
{"waiting":"b"}
{"entry":5}
{"drain":"idle","turns":8}
{"args":["b"],"attempts":0,"fn":"waits","id":"a","outcome":{"failure":"cancelled"},"parent":null,"queue":"one","started":2,"status":"ERROR"}
"#,
);

#[test]
fn a_queue_runs_as_many_as_its_bound(rt: HostRuntime) -> Result<(), Fail> {
    for (script, replies) in [BOUNDS, RESUMED, ROUNDS, BLOCKED] {
        answered(&rt, rt.alloc(), QUEUES, b"", script.as_bytes(), replies)?;
    }
    Ok(())
}

#[test]
fn a_drain_with_nothing_to_try_takes_no_turn(rt: HostRuntime) -> Result<(), Fail> {
    let replies = "{\"drain\":\"idle\",\"turns\":0}\n";
    answered(&rt, rt.alloc(), TINY, b"", b"{\"drain\":100}\n", replies)?;
    Ok(())
}

// A first run, and a second one over its store: who runs is recovered and keeps its place, who waits goes on waiting.
const TWO_RUNS: [(&str, &str); 2] = [
    (
        r#"{"enqueue":"a","queue":"one","fn":"done","args":[1]}
{"enqueue":"b","queue":"one","fn":"done","args":[2]}
{"dequeue":"one"}
"#,
        r#"{"entry":2,"id":"a"}
{"entry":3,"id":"b"}
{"entry":4,"id":"a"}
"#,
    ),
    (
        r#"{"dequeue":"one"}
{"status":"a"}
{"status":"b"}
{"drain":100}
{"start":"c","fn":"done","args":[3]}
"#,
        r#"{"limit":1}
{"args":[1],"attempts":1,"fn":"done","id":"a","outcome":null,"parent":null,"queue":"one","started":2,"status":"PENDING"}
{"args":[2],"attempts":0,"fn":"done","id":"b","outcome":null,"parent":null,"queue":"one","started":3,"status":"ENQUEUED"}
{"drain":"idle","turns":8}
{"entry":9,"id":"c"}
"#,
    ),
];

#[test]
fn a_queue_outlives_a_restart(rt: HostRuntime) -> Result<(), Fail> {
    let mut image = Vec::new(rt.alloc());
    for (script, replies) in TWO_RUNS {
        let left = answered(&rt, rt.alloc(), QUEUES, &image, script.as_bytes(), replies)?;
        image = left.desk.image().to_vec(rt.alloc())?;
    }
    Ok(())
}
