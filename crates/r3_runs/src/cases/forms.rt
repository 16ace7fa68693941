//! Lines: each form with its replies, lines that are none, refusals in their order, requests that come again, and IDs
//! that are made.

use super::answered;
use r3_gen::BANK;
use std::test::Fail;

// Each form, one of them with blanks and most with their keys in another order, and each kind of value.
const FORMS: (&str, &str) = (
    r#"{"rows":{"a":10,"b":5,"i":-9223372036854775808,"l":[[],"é\n",true],"n":null},"load":"acct"}
  { "start" : "s1" , "args" : [ "a" , "b" , 1 ] , "fn" : "send" }  

{"args":["a","b",1],"queue":"mail","fn":"send","enqueue":"e1"}
{"dequeue":"mail"}
{"turn":"s1"}
{"turn":"s1"}
{"to":"f1","step":1,"fork":"s1"}
{"cancel":"e1"}
{"resume":"e1"}
{"drain":100}
{"status":"e1"}
{"status":"f1"}
{"key":"a","get":"acct"}
{"get":"acct","key":"i"}
{"get":"acct","key":"l"}
{"get":"acct","key":"n"}
{"get":"acct","key":"none"}
{"turn":"none","turn":"s1"}
{"load":"acct","rows":{"a":1,"a":2}}
{"get":"acct","key":"a"}"#,
    r#"{"entry":2}
{"entry":3,"id":"s1"}
{"entry":4,"id":"e1"}
{"entry":5,"id":"e1"}
{"began":5}
{"entry":6}
{"entry":7,"id":"f1"}
{"entry":8}
{"entry":9}
{"drain":"idle","turns":9}
{"args":["a","b",1],"attempts":0,"fn":"send","id":"e1","outcome":{"value":1},"parent":null,"queue":null,"started":4,"status":"SUCCESS"}
{"args":["a","b",1],"attempts":0,"fn":"send","id":"f1","outcome":{"value":1},"parent":null,"queue":null,"started":7,"status":"SUCCESS"}
{"value":8}
{"value":-9223372036854775808}
{"value":[[],"é\n",true]}
{"value":null}
{"absent":true}
{"none":"SUCCESS"}
{"entry":14}
{"value":2}
"#,
);

// Commands with all of their faults at once, then with all but the first, and so on. Only what isn't refused appends.
const REFUSED: (&str, &str) = (
    r#"{"start":"s1","fn":"send","args":["a","b",1]}
{"start":"o1","fn":"odd","args":[1]}
{"load":"none","rows":{"a":1}}
{"get":"none","key":"a"}
{"start":"","fn":"none","args":[]}
{"start":"s1","fn":"none","args":[]}
{"start":"s1","fn":"pay","args":["a","b",1]}
{"start":"s1","fn":"move","args":[]}
{"start":"s1","fn":"move","args":["a","b",1]}
{"enqueue":"","queue":"none","fn":"none","args":[]}
{"enqueue":"s1","queue":"none","fn":"none","args":[]}
{"enqueue":"s1","queue":"mail","fn":"none","args":[]}
{"enqueue":"s1","queue":"mail","fn":"move","args":[]}
{"enqueue":"s1","queue":"mail","fn":"move","args":["a","b",1]}
{"fork":"none","step":1000,"to":""}
{"fork":"s1","step":1000,"to":""}
{"fork":"s1","step":1000,"to":"o1"}
{"fork":"s1","step":0,"to":"o1"}
{"turn":"none"}
{"status":"none"}
{"dequeue":"none"}
{"cancel":"none"}
{"resume":"none"}
{"resume":"s1"}
{"turn":"o1"}
{"cancel":"o1"}
{"resume":"o1"}
{"cancel":"s1"}
{"cancel":"s1"}
{"turn":"s1"}
{"enqueue":"e1","queue":"mail","fn":"odd","args":[1]}
{"resume":"e1"}
{"turn":"e1"}
"#,
    r#"{"entry":2,"id":"s1"}
{"entry":3,"id":"o1"}
{"refused":"unknown_table"}
{"refused":"unknown_table"}
{"refused":"id"}
{"refused":"unknown_function"}
{"refused":"unknown_function"}
{"refused":"arity"}
{"refused":"conflict"}
{"refused":"id"}
{"refused":"unknown_queue"}
{"refused":"unknown_function"}
{"refused":"arity"}
{"refused":"conflict"}
{"refused":"unknown_id"}
{"refused":"id"}
{"refused":"step"}
{"refused":"conflict"}
{"refused":"unknown_id"}
{"refused":"unknown_id"}
{"refused":"unknown_queue"}
{"refused":"unknown_id"}
{"refused":"unknown_id"}
{"refused":"status","status":"PENDING"}
{"entry":4}
{"refused":"status","status":"SUCCESS"}
{"refused":"status","status":"SUCCESS"}
{"entry":5}
{"refused":"status","status":"CANCELLED"}
{"none":"CANCELLED"}
{"entry":6,"id":"e1"}
{"refused":"status","status":"ENQUEUED"}
{"none":"ENQUEUED"}
"#,
);

// Requests that come again, with other arguments, another queue or another source; wrong ones are refused all the same.
const REPEATED: (&str, &str) = (
    r#"{"start":"s1","fn":"odd","args":[1]}
{"enqueue":"e1","queue":"mail","fn":"odd","args":[1]}
{"start":"s1","fn":"odd","args":[2]}
{"enqueue":"s1","queue":"mail","fn":"odd","args":[1]}
{"start":"e1","fn":"odd","args":[1]}
{"fork":"s1","step":0,"to":"s1"}
{"fork":"s1","step":0,"to":"e1"}
{"turn":"s1"}
{"start":"s1","fn":"odd","args":[1]}
{"start":"s1","fn":"odd","args":[]}
{"enqueue":"e1","queue":"none","fn":"odd","args":[1]}
{"fork":"s1","step":1,"to":"s1"}
{"status":"s1"}
{"status":"e1"}
{"start":"s2","fn":"odd","args":[1]}
"#,
    r#"{"entry":2,"id":"s1"}
{"entry":3,"id":"e1"}
{"entry":2,"id":"s1"}
{"entry":2,"id":"s1"}
{"entry":3,"id":"e1"}
{"entry":2,"id":"s1"}
{"entry":3,"id":"e1"}
{"entry":4}
{"entry":2,"id":"s1"}
{"refused":"arity"}
{"refused":"unknown_queue"}
{"refused":"step"}
{"args":[1],"attempts":0,"fn":"odd","id":"s1","outcome":{"value":"overflow"},"parent":null,"queue":null,"started":2,"status":"SUCCESS"}
{"args":[1],"attempts":0,"fn":"odd","id":"e1","outcome":null,"parent":null,"queue":"mail","started":3,"status":"ENQUEUED"}
{"entry":5,"id":"s2"}
"#,
);

// IDs that are made: the version 5 UUIDs of the nil namespace and the texts `1`, `2`, `3`, `5` and `6`, as another
// program computes them. A refusal uses none up, and a repeat is told of an ID that was made as well.
const MADE: (&str, &str) = (
    r#"{"start":null,"fn":"odd","args":[1]}
{"start":null,"fn":"odd","args":[]}
{"enqueue":null,"queue":"mail","fn":"odd","args":[1]}
{"fork":"11116e73-1c03-5de6-9130-5f9925ae8ab4","step":0,"to":null}
{"start":"f797f61e-a392-5acf-af25-b46057f1c8e8","fn":"odd","args":[1]}
{"start":null,"fn":"odd","args":[2]}
{"start":null,"fn":"wait","args":["x"]}
{"turn":"7e57d004-2b97-5e7a-b45f-5387367791cd"}
{"start":null,"fn":"wait","args":["x"]}"#,
    r#"{"entry":2,"id":"11116e73-1c03-5de6-9130-5f9925ae8ab4"}
{"refused":"arity"}
{"entry":3,"id":"1087ebe8-1ef8-5d97-8873-735b4949004d"}
{"entry":4,"id":"7e57d004-2b97-5e7a-b45f-5387367791cd"}
{"entry":5,"id":"f797f61e-a392-5acf-af25-b46057f1c8e8"}
{"entry":5,"id":"f797f61e-a392-5acf-af25-b46057f1c8e8"}
{"refused":"conflict"}
{"entry":6}
{"entry":7,"id":"e02c9780-2fc5-5d57-b92f-4cc3a64bff16"}
"#,
);

#[test]
fn each_form_has_its_replies_and_its_refusals(rt: HostRuntime) -> Result<(), Fail> {
    for (script, replies) in [FORMS, REFUSED, REPEATED, MADE] {
        answered(&rt, rt.alloc(), BANK, b"", script.as_bytes(), replies)?;
    }
    Ok(())
}

const SYNTAX: &str = "{\"refused\":\"syntax\"}\n";

const COMMAND: &str = "{\"refused\":\"command\"}\n";

#[test]
fn a_line_that_is_no_form_is_refused(rt: HostRuntime) -> Result<(), Fail> {
    // a line, its reply; blank lines have none
    let cases = [
        (b"{".as_slice(), SYNTAX),
        (b"{\"turn\":\"x\"} {}", SYNTAX),
        (b"{\"turn\":'x'}", SYNTAX),
        (b"{\"turn\":\"\xff\"}", SYNTAX),
        (b"{\"drain\":1e400}", SYNTAX),
        (b"{\"drain\":01}", SYNTAX),
        (b"\xc2\xa0", SYNTAX),
        (b"\n \t\r\n\t{\r\n\r\n\t", SYNTAX),
        (b"[]", COMMAND),
        (b"null", COMMAND),
        (b"{}", COMMAND),
        (b"{\"stop\":\"x\"}", COMMAND),
        (b"{\"turn\":1}", COMMAND),
        (b"{\"turn\":null}", COMMAND),
        (b"{\"turn\":\"x\",\"at\":1}", COMMAND),
        (b"{\"turn\":\"x\",\"status\":\"x\"}", COMMAND),
        (b"{\"turn\":\"x\",\"turn\":null}", COMMAND),
        (b"{\"drain\":0}", COMMAND),
        (b"{\"drain\":-1}", COMMAND),
        (b"{\"drain\":1000001}", COMMAND),
        (b"{\"drain\":1.0}", COMMAND),
        (b"{\"drain\":1e2}", COMMAND),
        (b"{\"drain\":\"1\"}", COMMAND),
        (b"{\"get\":\"acct\"}", COMMAND),
        (b"{\"get\":\"acct\",\"key\":\"\"}", COMMAND),
        (b"{\"get\":\"acct\",\"key\":1}", COMMAND),
        (b"{\"load\":\"acct\",\"rows\":{}}", COMMAND),
        (b"{\"load\":\"acct\",\"rows\":[]}", COMMAND),
        (b"{\"load\":\"acct\",\"rows\":{\"\":1}}", COMMAND),
        (b"{\"load\":\"acct\",\"rows\":{\"a\":1.5}}", COMMAND),
        (b"{\"load\":\"acct\",\"rows\":{\"a\":-0}}", COMMAND),
        (b"{\"load\":\"acct\",\"rows\":{\"a\":{}}}", COMMAND),
        (
            b"{\"load\":\"acct\",\"rows\":{\"a\":9223372036854775808}}",
            COMMAND,
        ),
        (b"{\"start\":\"x\",\"fn\":\"odd\",\"args\":[1.5]}", COMMAND),
        (b"{\"start\":\"x\",\"fn\":\"odd\",\"args\":[{}]}", COMMAND),
        (b"{\"start\":\"x\",\"fn\":\"odd\",\"args\":1}", COMMAND),
        (b"{\"start\":\"x\",\"fn\":\"odd\"}", COMMAND),
        (b"{\"start\":1,\"fn\":\"odd\",\"args\":[1]}", COMMAND),
        (b"{\"enqueue\":\"x\",\"fn\":\"odd\",\"args\":[1]}", COMMAND),
        (
            b"{\"enqueue\":\"x\",\"fn\":\"odd\",\"args\":[1],\"queue\":null}",
            COMMAND,
        ),
        (b"{\"fork\":\"x\",\"step\":1001,\"to\":\"y\"}", COMMAND),
        (b"{\"fork\":\"x\",\"step\":-1,\"to\":\"y\"}", COMMAND),
        (b"{\"fork\":null,\"step\":0,\"to\":\"y\"}", COMMAND),
        (b"{\"cancel\":null}", COMMAND),
        (b"{\"resume\":[\"x\"]}", COMMAND),
    ];
    let mut script = Vec::new(rt.alloc());
    let mut replies = String::new(rt.alloc());
    for (line, reply) in cases {
        script.extend_from_slice(line)?;
        script.push(b'\n')?;
        replies.push_str(reply)?;
    }
    answered(&rt, rt.alloc(), BANK, b"", &script, replies.as_str())?;
    Ok(())
}
