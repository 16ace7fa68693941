//! The commands, by the number of words that they take.

ghost use Rattle.std.specs.Prelude.{◌≡◌, ◌^◌, ◌-◌, [], ◌∷◌};
ghost use Rattle.std.specs.Option.{option_map};
ghost use Rattle.r3_words.specs.Numbers.{number_within};
ghost use Rattle.r3_words.specs.Forms.{asked, form_of, gen_of, recover};

use crate::number::number;

const MOST_TURNS: u64 = 1_000_000;

const MOST_COUNT: u64 = 100_000;

const MOST_NUMBER: u64 = (1 << 48) - 1;

/// A command with the store that it is for.
#[derive(Clone, Copy, Debug, PartialEq, Eq)]
pub struct CommandLine<'a> {
    pub store: &'a str,
    pub command: Command<'a>,
}

/// A command. Paths of files and the ID are as they stand in the words.
#[derive(Clone, Copy, Debug, PartialEq, Eq)]
pub enum Command<'a> {
    /// Answers the lines of the script.
    Run {
        functions: &'a str,
    },
    /// Drains the store, in 1 to 1,000,000 turns.
    Recover {
        functions: &'a str,
        turns: u32,
    },
    /// Says what each entry of the store is.
    Trace,
    /// Runs all workflows again, or one.
    Replay {
        functions: &'a str,
        id: Option<&'a str>,
    },
    /// Runs the workflows again under other functions.
    Retro {
        functions: &'a str,
        plan: &'a str,
    },
    /// Checks the functions alone.
    Check {
        functions: &'a str,
    },
    /// Runs a script that is made from a number below 2^48, of 1 to 100,000 workflows.
    Gen {
        number: u64,
        count: u32,
    },
}

/// The command of one word.
pub fn alone(word: &str) -> Option<Command<'static>>
    ensures { option_map asked result ≡ form_of (word.now ∷ []) }
{
    match word {
        "trace" => Some(Command::Trace),
        _ => None,
    }
}

/// The command of a word and one more.
pub fn with_one<'a>(word: &str, a: &'a str) -> Option<Command<'a>>
    ensures { option_map asked result ≡ form_of (word.now ∷ a.now ∷ []) }
{
    match word {
        "run" => Some(Command::Run { functions: a }),
        "replay" => Some(Command::Replay {
            functions: a,
            id: None,
        }),
        "check" => Some(Command::Check { functions: a }),
        _ => None,
    }
}

fn recover<'a>(a: &'a str, b: &str) -> Option<Command<'a>>
    ensures { option_map asked result ≡ option_map (recover a.now) (number_within 1 1000000 b.now) }
{
    match number(b, 1, MOST_TURNS) {
        Some(turns) => Some(Command::Recover {
            functions: a,
            turns: turns as u32,
        }),
        None => None,
    }
}

fn gen_of(a: &str, b: &str) -> Option<Command<'static>>
    ensures { option_map asked result
        ≡ gen_of (number_within 0 (2 ^ 48 - 1) a.now) (number_within 1 100000 b.now) }
{
    match (number(a, 0, MOST_NUMBER), number(b, 1, MOST_COUNT)) {
        (Some(number), Some(count)) => Some(Command::Gen {
            number,
            count: count as u32,
        }),
        _ => None,
    }
}

/// The command of a word and two more.
pub fn with_two<'a>(word: &str, a: &'a str, b: &'a str) -> Option<Command<'a>>
    ensures { option_map asked result ≡ form_of (word.now ∷ a.now ∷ b.now ∷ []) }
{
    match word {
        "recover" => recover(a, b),
        "replay" => Some(Command::Replay {
            functions: a,
            id: Some(b),
        }),
        "retro" => Some(Command::Retro {
            functions: a,
            plan: b,
        }),
        "gen" => gen_of(a, b),
        _ => None,
    }
}
