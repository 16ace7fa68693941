use crate::{Line, read_line};
use std::alloc::Global;
use std::test::Fail;
use sys_flow::Command;

fn command_word(command: &Command) -> &'static str {
    match command {
        Command::Load { .. } => "load",
        Command::Start { .. } => "start",
        Command::Enqueue { .. } => "enqueue",
        Command::Cancel { .. } => "cancel",
        Command::Resume { .. } => "resume",
        Command::Fork { .. } => "fork",
        Command::Recover { .. } => "recover",
    }
}

fn line_word(line: &Line) -> &'static str {
    match line {
        Line::Command(command) => command_word(command),
        Line::Turn(_) => "turn",
        Line::Dequeue(_) => "dequeue",
        Line::Status(_) => "status",
        Line::Get { .. } => "get",
        Line::Drain { .. } => "drain",
        Line::Unread => "unread",
        Line::Unformed => "unformed",
    }
}

fn word_of(alloc: Global, line: &str) -> Result<&'static str, Fail> {
    let line = read_line(alloc, line.as_bytes())?;
    Ok(line_word(&line))
}

#[test]
fn each_form_is_read(rt: HostRuntime) -> Result<(), Fail> {
    let alloc = rt.alloc();
    // a line, and what it is
    let cases = [
        (r#"{"load":"acct","rows":{"a":10,"b":[]}}"#, "load"),
        (r#"{"start":null,"fn":"move","args":["a"]}"#, "start"),
        (
            r#"{"args":[],"enqueue":"e","fn":"send","queue":"mail"}"#,
            "enqueue",
        ),
        (r#"{"cancel":"s1"}"#, "cancel"),
        (r#"{"resume":"s1"}"#, "resume"),
        (r#"{"fork":"m1","step":1000,"to":null}"#, "fork"),
        (r#" { "turn" : "" } "#, "turn"),
        (r#"{"dequeue":"mail"}"#, "dequeue"),
        (r#"{"status":"m1"}"#, "status"),
        (r#"{"get":"acct","key":"a"}"#, "get"),
        (r#"{"drain":1000000}"#, "drain"),
    ];
    for (line, want) in cases {
        assert_eq!(rt; word_of(alloc, line)?, want, "{line}");
    }
    Ok(())
}

#[test]
fn no_form_is_told_from_no_json(rt: HostRuntime) -> Result<(), Fail> {
    let alloc = rt.alloc();
    // a line, and what it is
    let cases = [
        ("{", "unread"),
        (r#"{"drain":1e400}"#, "unread"),
        (r#"{"drain":1e3}"#, "unformed"),
        (r#"{"drain":0}"#, "unformed"),
        (r#"{"drain":1000001}"#, "unformed"),
        (r#"{"turn":"x","turn":null}"#, "unformed"),
        (r#"{"turn":"x","at":1}"#, "unformed"),
        (r#"{"start":"x","fn":"move","args":[1.5]}"#, "unformed"),
        (r#"{"fork":"m1","step":-1,"to":"m2"}"#, "unformed"),
        (r#"{"load":"acct","rows":{}}"#, "unformed"),
        (r#"{"get":"acct","key":""}"#, "unformed"),
        ("[]", "unformed"),
    ];
    for (line, want) in cases {
        assert_eq!(rt; word_of(alloc, line)?, want, "{line}");
    }
    Ok(())
}
