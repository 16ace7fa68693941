//! Limits of lines: the last value that is taken, and the first past it.

use super::answered;
use r3_gen::BANK;
use std::test::Fail;

const ENTRY: &str = "{\"entry\":2}\n";

const ABSENT: &str = "{\"absent\":true}\n";

const STARTED: &str = "{\"entry\":2,\"id\":\"x\"}\n";

const REFUSED: &str = "{\"refused\":\"command\"}\n";

#[test]
fn a_value_is_taken_up_to_its_limits(rt: HostRuntime) -> Result<(), Fail> {
    let load = "{\"load\":\"acct\",\"rows\":{\"";
    let value = "{\"load\":\"acct\",\"rows\":{\"a\":";
    let text = "{\"load\":\"acct\",\"rows\":{\"a\":\"";
    let get = "{\"get\":\"acct\",\"key\":\"";
    let start = "{\"start\":\"x\",\"fn\":\"odd\",\"args\":";
    // what stands in front, what comes so often behind it and in the middle, what stands between and at the end; the reply
    let cases = [
        (load, "k", 256, "", "", "\":1}}", ENTRY),
        (load, "k", 257, "", "", "\":1}}", REFUSED),
        (get, "k", 256, "", "", "\"}", ABSENT),
        (get, "k", 257, "", "", "\"}", REFUSED),
        (text, "t", 4_091, "", "", "\"}}", ENTRY),
        (text, "t", 4_092, "", "", "\"}}", REFUSED),
        (value, "[", 16, "", "]", "}}", ENTRY),
        (value, "[", 17, "", "]", "}}", REFUSED),
        (value, "[", 1, "", "]", "}}", ENTRY),
        (start, "[", 16, "", "]", "}", STARTED),
        (start, "[", 17, "", "]", "}", REFUSED),
        (start, "[", 1, "1", "]", "}", STARTED),
    ];
    for (front, part, count, middle, back, end, reply) in cases {
        let parts = part.repeat(rt.alloc(), count)?;
        let backs = back.repeat(rt.alloc(), count)?;
        let line = format!(in rt.alloc(); "{front}{parts}{middle}{backs}{end}")?;
        answered(&rt, rt.alloc(), BANK, b"", line.as_bytes(), reply)?;
    }
    Ok(())
}

// The arguments are one list, which weighs 5 and its text's 5 and bytes.
#[test]
fn arguments_have_at_most_4096_bytes(rt: HostRuntime) -> Result<(), Fail> {
    for (count, reply) in [(4_086, STARTED), (4_087, REFUSED)] {
        let text = "t".repeat(rt.alloc(), count)?;
        let line = format!(in rt.alloc();
            "{{\"start\":\"x\",\"fn\":\"odd\",\"args\":[\"{text}\"]}}"
        )?;
        answered(&rt, rt.alloc(), BANK, b"", line.as_bytes(), reply)?;
    }
    Ok(())
}

#[test]
fn a_load_has_at_most_1024_rows(rt: HostRuntime) -> Result<(), Fail> {
    for (count, reply) in [(1_024_u32, ENTRY), (1_025, REFUSED)] {
        let mut line = String::from_str(rt.alloc(), "{\"load\":\"acct\",\"rows\":{\"k0\":0")?;
        for row in 1..count {
            let member = format!(in rt.alloc(); ",\"k{row}\":{row}")?;
            line.push_str(member.as_str())?;
        }
        line.push_str("}}")?;
        answered(&rt, rt.alloc(), BANK, b"", line.as_bytes(), reply)?;
    }
    Ok(())
}

// A longer one is no ID, so no workflow has it.
#[test]
fn an_id_has_at_most_200_bytes(rt: HostRuntime) -> Result<(), Fail> {
    for (count, is_taken) in [(200, true), (201, false)] {
        let id = "w".repeat(rt.alloc(), count)?;
        let script = format!(in rt.alloc();
            "{{\"start\":\"{id}\",\"fn\":\"odd\",\"args\":[1]}}\n{{\"turn\":\"{id}\"}}\n"
        )?;
        let replies = if is_taken {
            format!(in rt.alloc(); "{{\"entry\":2,\"id\":\"{id}\"}}\n{{\"entry\":3}}\n")?
        } else {
            String::from_str(
                rt.alloc(),
                "{\"refused\":\"id\"}\n{\"refused\":\"unknown_id\"}\n",
            )?
        };
        answered(
            &rt,
            rt.alloc(),
            BANK,
            b"",
            script.as_bytes(),
            replies.as_str(),
        )?;
    }
    Ok(())
}
