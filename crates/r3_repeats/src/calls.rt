//! Laws of calls on one store.

ghost use Rattle.r3_repeats.specs.Laws.{AcceptedIsAccepted, AcceptedIsShown, RepeatsAreAlike, ResultsAreAlike, StoresOneStart, WholeGoes};
ghost use Rattle.r3_repeats.specs.Steps.{ExpectsEachTurn, LeavesMade, StoresStepsOnce};

use r3_laws::{commits_once, expects_all};

/// A call that lost nothing is one of those of which the law below speaks.
pub fn whole_calls_go()
    ensures { WholeGoes }
{}

/// Over calls on one store, with crashes between and inside them: once a reply was acknowledged, or its call
/// lost nothing, each later reply to a start of the same ID is the same, and so is each later result.
pub fn repeats_are_alike()
    ensures repeats { RepeatsAreAlike }
    ensures accepted { AcceptedIsAccepted }
    ensures shown { AcceptedIsShown }
    ensures results { ResultsAreAlike }
    ensures once { StoresOneStart }
{}

/// Calls on one store leave what the program made, whatever crashes: so each step is stored once, and no turn is
/// unexpected.
pub fn stores_steps_once()
    ensures made { LeavesMade }
    ensures once { StoresStepsOnce }
    ensures expects { ExpectsEachTurn }
{
    commits_once();
    expects_all();
}
