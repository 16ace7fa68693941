//! A whole command line.

ghost use Rattle.std.specs.Prelude.{◌≡◌, IfOk, IfSome, map, string_bytes};
ghost use Rattle.std.specs.List.{list_all};
ghost use Rattle.std.specs.Option.{option_map};
ghost use Rattle.r3_words.specs.Forms.{HasLimits, asked, is_word, said, command_of};

use crate::command::CommandLine;
use crate::positions::command_of;
use r3_value::Memory;
use std::alloc::Global;

// Whether the word isn't empty and doesn't begin with a hyphen.
fn is_word(word: &String) -> bool
    ensures { result ≡ is_word (string_bytes word.now) }
{
    match word.as_bytes().first() {
        None => false,
        Some(byte) => *byte != b'-',
    }
}

fn are_words(words: &[String]) -> bool
    ensures { result ≡ list_all is_word (map string_bytes words.now) }
{
    words.iter().all(|word| is_word(word))
}

/// The command that the words behind the program's own name are; None where they are none.
///
/// | words | command |
/// |---|---|
/// | `STORE run FUNCTIONS` | `Run` |
/// | `STORE recover FUNCTIONS TURNS` | `Recover`, of 1 to 1,000,000 turns |
/// | `STORE trace` | `Trace` |
/// | `STORE replay FUNCTIONS`, `STORE replay FUNCTIONS ID` | `Replay` |
/// | `STORE retro FUNCTIONS PLAN` | `Retro` |
/// | `STORE check FUNCTIONS` | `Check` |
/// | `STORE gen NUMBER COUNT` | `Gen`, of a number below 2^48 and a count of 1 to 100,000 |
///
/// No word is empty, and none but the first begins with a hyphen. A number is written in decimal
/// digits without a leading zero.
pub fn read<'a>(alloc: Global, words: &'a [String]) -> Result<Option<CommandLine<'a>>, Memory>
    ensures command { IfOk result (λ line. option_map said line ≡ command_of (map string_bytes words.now)) }
    ensures limits { IfOk result (λ line. IfSome line (λ l. HasLimits (asked l.command))) }
{
    let Some((store, rest)) = words.split_first() else {
        return Ok(None);
    };
    let store = store.as_str();
    if store.is_empty() || !are_words(rest) {
        return Ok(None);
    }
    let Some(command) = command_of(alloc, rest)? else {
        return Ok(None);
    };
    Ok(Some(CommandLine { store, command }))
}
