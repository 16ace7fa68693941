//! The words behind the path of the store, each in its place.

ghost use Rattle.std.specs.Prelude.{◌≡◌, true, false, None, IfOk, MatchOption, codes, map, string_bytes};
ghost use Rattle.std.specs.List.{list_all};
ghost use Rattle.std.specs.Option.{option_map};
ghost use Rattle.clap.specs.Words.{app_of, first_value, found_of, kind_of};
ghost use Rattle.r3_words.specs.Forms.{asked, form_of, is_word};
ghost use Rattle.r3_words.specs.Places.{placed, three_places};

use crate::command::{Command, alone, with_one, with_two};
use clap::error::ErrorKind;
use clap::{Arg, ArgAction, ArgMatches, Error};
use r3_value::Memory;
use std::alloc::Global;

// One word, and at most two more.
fn three_places<'a>(alloc: Global) -> Result<clap::Command<'a>, Memory>
    ensures { IfOk result (λ line. app_of line ≡ three_places) }
{
    let word = Arg::new(alloc, "command")
        .required(true)
        .action(ArgAction::Set);
    let first = Arg::new(alloc, "first");
    let second = Arg::new(alloc, "second");
    let line = clap::Command::new(alloc, "r3")
        .no_binary_name(true)
        .disable_help_flag(true)
        .arg(word)?
        .arg(first)?
        .arg(second)?;
    Ok(line)
}

fn is_memory(error: &Error) -> bool
    ensures { result ≡ false → kind_of error.now ≡ ErrorKind.OutOfMemory → ⊥ }
{
    error.kind() == ErrorKind::OutOfMemory
}

// The words in their places; None where they are too few or too many.
fn parse<'a>(alloc: Global, words: &'a [String]) -> Result<Option<ArgMatches<'a>>, Memory>
    requires { list_all is_word (map string_bytes words.now) ≡ true }
    ensures { IfOk result (λ matches. MatchOption matches (form_of (map string_bytes words.now) ≡ None)
        (λ m. form_of (map string_bytes words.now) ≡ placed (first_value (found_of m) (codes "command"))
        (first_value (found_of m) (codes "first")) (first_value (found_of m) (codes "second")))) }
{
    let line = three_places(alloc)?;
    match line.try_get_matches_from(words) {
        Ok(matches) => Ok(Some(matches)),
        Err(error) => {
            if is_memory(&error) {
                return Err(Memory);
            }
            Ok(None)
        }
    }
}

/// The command that the words behind the path are. None of them is empty or looks like an option.
pub fn command_of<'a>(alloc: Global, words: &'a [String]) -> Result<Option<Command<'a>>, Memory>
    requires { list_all is_word (map string_bytes words.now) ≡ true }
    ensures { IfOk result (λ command. option_map asked command ≡ form_of (map string_bytes words.now)) }
{
    let Some(matches) = parse(alloc, words)? else {
        return Ok(None);
    };
    let Some(word) = matches.get_str("command") else {
        return Ok(None);
    };
    let Some(first) = matches.get_str("first") else {
        return Ok(alone(word));
    };
    let Some(second) = matches.get_str("second") else {
        return Ok(with_one(word, first));
    };
    Ok(with_two(word, first, second))
}
