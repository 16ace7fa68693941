//! Laws of workflows and their starts, event by event.

ghost use Rattle.r3_repeats.specs.Laws.{AcceptedIsFirst, AcceptedStands, AcceptsAgain, AddsNothing, EachHasFirst, KeepsFirst, KeepsFlows, TellsRepeats};

/// Whatever events follow, a workflow that is there keeps its function, its arguments and its number, and all
/// of its row once it has ended. The entry that started it stays the first of its ID.
pub fn keeps_starts()
    ensures keeps { KeepsFlows }
    ensures first { KeepsFirst }
    ensures found { EachHasFirst }
{}

/// A start, an enqueue or a fork is answered by the repeat rule where its ID is there. An accepted one tells
/// the number of the entry that started the workflow, which stands there.
pub fn tells_starts()
    ensures tells { TellsRepeats }
    ensures stands { AcceptedStands }
    ensures first { AcceptedIsFirst }
{}

/// A repeated start changes nothing and asks nothing. One that was accepted under its own ID is accepted
/// again, whatever events come between.
pub fn accepts_repeats()
    ensures adds { AddsNothing }
    ensures accepts { AcceptsAgain }
{}
