//! Laws of the language of a program.

ghost use Rattle.r3_laws.specs.OfPrograms.{ProgramsAreLawful, ProgramsAreLimited};

/// The language of a program counts its steps and tells its looks truly, so the laws hold of it.
pub fn programs_are_lawful()
    ensures { ProgramsAreLawful }
{}

/// The language of a sound program stays within the limits of entries. That its literals are such
/// as a value can hold is told by `holds_values` of a checked program.
pub fn programs_are_limited()
    ensures { ProgramsAreLimited }
{}
