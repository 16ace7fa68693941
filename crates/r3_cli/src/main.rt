//! A durable execution engine on the command line.
//!
//! `main` hands `top`, which is the whole program, the words and the files of the operating system.
#![tactic(auto)]

use r3_host::{HostDesk, HostShelf, HostSource};
use r3_top::top;
use std::alloc::Global;
use std::io::ErrorKind;
use std::process::ExitCode;
use std::{env, io};

const NO_MEMORY: u8 = 3;

// The words behind the program's own name.
fn words_of(rt: &HostRuntime, alloc: Global) -> io::Result<Vec<String>> {
    let mut args = env::args(rt)?;
    let _program = args.next();
    Ok(args.collect(alloc)?)
}

fn main(rt: HostRuntime) -> ExitCode {
    let alloc = rt.alloc();
    let words = match words_of(&rt, alloc) {
        Ok(words) => words,
        Err(fault) if fault.kind() == ErrorKind::OutOfMemory => return ExitCode::from(NO_MEMORY),
        // A word that isn't UTF-8 makes no command.
        Err(_) => Vec::new(alloc),
    };
    let store = match words.first() {
        Some(word) => word.as_str(),
        None => "",
    };
    let Ok(mut desk) = HostDesk::at(rt, alloc, store) else {
        return ExitCode::from(NO_MEMORY);
    };
    let mut script = HostSource::new(&rt);
    let mut shelf = HostShelf::new(rt);
    ExitCode::from(top(alloc, &words, &mut desk, &mut script, &mut shelf))
}
