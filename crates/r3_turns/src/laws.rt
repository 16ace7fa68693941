//! Laws of what workflows ask for.

ghost use Rattle.r3_turns.specs.Asks.{AsksWhatIsThere};

/// A workflow's run asks for a transaction only where its program has it, on as many arguments as it has
/// parameters.
pub fn asks_what_is_there()
    ensures { AsksWhatIsThere }
{}
