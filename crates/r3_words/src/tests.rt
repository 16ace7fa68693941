//! Command lines, with the commands that they are by the table of commands.

use crate::command::{Command, CommandLine};
use crate::line::read;
use std::alloc::Global;
use std::test::Fail;

fn words_of(alloc: Global, words: &[&str]) -> Result<Vec<String>, Fail> {
    let mut list = Vec::new(alloc);
    for word in words {
        list.push(String::from_str(alloc, word)?)?;
    }
    Ok(list)
}

#[test]
fn each_form_is_its_command(rt: HostRuntime) -> Result<(), Fail> {
    let alloc = rt.alloc();
    // words behind the path, command
    let cases = [
        (["run", "f"].as_slice(), Command::Run { functions: "f" }),
        (
            &["recover", "f", "1"],
            Command::Recover {
                functions: "f",
                turns: 1,
            },
        ),
        (
            &["recover", "f", "1000000"],
            Command::Recover {
                functions: "f",
                turns: 1_000_000,
            },
        ),
        (&["trace"], Command::Trace),
        (
            &["replay", "f"],
            Command::Replay {
                functions: "f",
                id: None,
            },
        ),
        (
            &["replay", "f", "m1-0"],
            Command::Replay {
                functions: "f",
                id: Some("m1-0"),
            },
        ),
        (
            &["retro", "f", "p"],
            Command::Retro {
                functions: "f",
                plan: "p",
            },
        ),
        (&["check", "run"], Command::Check { functions: "run" }),
        (
            &["gen", "0", "1"],
            Command::Gen {
                number: 0,
                count: 1,
            },
        ),
        (
            &["gen", "281474976710655", "100000"],
            Command::Gen {
                number: 281_474_976_710_655,
                count: 100_000,
            },
        ),
    ];
    for (behind, command) in cases {
        let mut words = words_of(alloc, &["s"])?;
        for word in behind {
            words.push(String::from_str(alloc, word)?)?;
        }
        let line = read(alloc, &words)?;
        let want = CommandLine {
            store: "s",
            command,
        };
        assert_eq!(rt; line, Some(want));
    }
    Ok(())
}

#[test]
fn other_words_are_no_command(rt: HostRuntime) -> Result<(), Fail> {
    let alloc = rt.alloc();
    let cases = [
        [].as_slice(),
        &["s"],
        &["", "trace"],
        &["s", ""],
        &["s", "run"],
        &["s", "run", ""],
        &["s", "run", "-f"],
        &["s", "run", "--"],
        &["s", "--", "trace"],
        &["s", "-h"],
        &["s", "help"],
        &["s", "run", "f", "g"],
        &["s", "Run", "f"],
        &["run", "s", "f"],
        &["s", "f", "run"],
        &["s", "trace", "f"],
        &["s", "check", "f", "g"],
        &["s", "replay"],
        &["s", "replay", "f", "i", "j"],
        &["s", "retro", "f"],
        &["s", "recover", "f"],
        &["s", "recover", "f", "01"],
        &["s", "recover", "f", "0"],
        &["s", "recover", "f", "1000001"],
        &["s", "recover", "f", "+1"],
        &["s", "recover", "f", "1 "],
        &["s", "recover", "f", "1_0"],
        &["s", "recover", "f", "18446744073709551617"],
        &["s", "gen", "7"],
        &["s", "gen", "00", "1"],
        &["s", "gen", "7", "0"],
        &["s", "gen", "7", "100001"],
        &["s", "gen", "281474976710656", "1"],
    ];
    for words in cases {
        assert_eq!(rt; read(alloc, &words_of(alloc, words)?)?, None);
    }
    Ok(())
}

#[test]
fn the_path_of_the_store_may_begin_with_a_hyphen(rt: HostRuntime) -> Result<(), Fail> {
    let alloc = rt.alloc();
    for store in ["-s", "--", "--help", "a b", "0"] {
        let words = words_of(alloc, &[store, "trace"])?;
        let want = CommandLine {
            store,
            command: Command::Trace,
        };
        assert_eq!(rt; read(alloc, &words)?, Some(want));
    }
    Ok(())
}
