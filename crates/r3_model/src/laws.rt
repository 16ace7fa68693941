//! Laws of the machine: each is the contract of a function that does nothing.

ghost use Rattle.r3_model.specs.Laws.{DrainsByTurns, GoesInParts, OnlyAppends, RunsInParts};

/// Whatever happens, what stood in the history stays, and at most one entry comes behind it.
pub fn only_appends()
    ensures { OnlyAppends }
{}

/// A run over two lists of events is one run after the other.
pub fn runs_in_parts()
    ensures runs { RunsInParts }
    ensures goes { GoesInParts }
{}

/// A drain is a run of dequeues and turns, at most as many as it was given.
pub fn drains_by_turns()
    ensures { DrainsByTurns }
{}
