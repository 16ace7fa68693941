use crate::{Reply, reply_text, summary_text};
use r3_gate::Limit;
use r3_rows::{FlowRow, Status};
use r3_value::{Outcome, Txt, Val};
use std::alloc::Global;
use std::test::Fail;
use sys_flow::Refusal;

fn is_told(alloc: Global, reply: &Reply<'_>, want: &str) -> Result<bool, Fail> {
    let text = reply_text(alloc, reply)?;
    Ok(text.as_slice() == want.as_bytes())
}

#[test]
fn replies_are_lines_of_json(rt: HostRuntime) -> Result<(), Fail> {
    let alloc = rt.alloc();
    let started = Reply::EntryOf {
        number: 3,
        id: "m\"1",
    };
    assert!(rt; is_told(alloc, &started, "{\"entry\":3,\"id\":\"m\\\"1\"}\n")?);
    let full = Reply::Full {
        limit: Limit::Bytes,
    };
    assert!(rt; is_told(alloc, &full, "{\"full\":\"bytes\"}\n")?);
    let status = Status::Cancelled;
    let refused = Reply::Refused {
        refusal: Refusal::Status { status },
    };
    assert!(rt;
        is_told(
            alloc,
            &refused,
            "{\"refused\":\"status\",\"status\":\"CANCELLED\"}\n"
        )?
    );
    let spent = Reply::Spent { turns: 1_000_000 };
    assert!(rt; is_told(alloc, &spent, "{\"drain\":\"spent\",\"turns\":1000000}\n")?);
    assert!(rt; is_told(alloc, &Reply::Absent, "{\"absent\":true}\n")?);
    Ok(())
}

#[test]
fn an_unexpected_step_is_told_whole(rt: HostRuntime) -> Result<(), Fail> {
    let reply = Reply::Unexpected {
        n: 2,
        recorded: "pay",
        asked: "send",
    };
    let want = "{\"unexpected\":{\"asked\":\"send\",\"n\":2,\"recorded\":\"pay\"}}\n";
    assert!(rt; is_told(rt.alloc(), &reply, want)?);
    Ok(())
}

fn ended_row(alloc: Global) -> Result<FlowRow, Fail> {
    Ok(FlowRow {
        status: Status::Success,
        function: Txt::new(alloc, "move")?,
        args: Val::Int(-1),
        outcome: Some(Outcome::Value(Val::Int(3))),
        queue: None,
        started: 3,
        attempts: 0,
        parent: Some(Txt::new(alloc, "p")?),
    })
}

#[test]
fn a_row_is_told_whole(rt: HostRuntime) -> Result<(), Fail> {
    let alloc = rt.alloc();
    let row = ended_row(alloc)?;
    let reply = Reply::Row {
        id: "m1",
        row: &row,
    };
    let want = concat!(
        "{\"args\":-1,\"attempts\":0,\"fn\":\"move\",\"id\":\"m1\",\"outcome\":{\"value\":3},",
        "\"parent\":\"p\",\"queue\":null,\"started\":3,\"status\":\"SUCCESS\"}\n"
    );
    assert!(rt; is_told(alloc, &reply, want)?);
    Ok(())
}

#[test]
fn a_summary_has_three_numbers(rt: HostRuntime) -> Result<(), Fail> {
    let text = summary_text(rt.alloc(), 30002, 10000, -5)?;
    let want = b"{\"entries\":30002,\"success\":10000,\"sum\":-5}\n".as_slice();
    assert_eq!(rt; text.as_slice(), want);
    // 64 accounts of 2^63 - 1 each
    let text = summary_text(rt.alloc(), 2, 0, 590_295_810_358_705_651_648)?;
    let want = b"{\"entries\":2,\"success\":0,\"sum\":590295810358705651648}\n".as_slice();
    assert_eq!(rt; text.as_slice(), want);
    Ok(())
}
