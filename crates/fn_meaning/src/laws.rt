//! Laws over the meaning alone.

ghost use Rattle.fn_tree.specs.Cost.{ExpressionsShift, TransactionsShift, FlowsShift};
ghost use Rattle.fn_tree.specs.Limits.{RunsWithin};
ghost use Rattle.fn_tree.specs.LongerAnswers.{RunsOn};
ghost use Rattle.fn_tree.specs.NeverStuck.{ExpressionsNeverStuck, FlowsNeverStuck, TxnsNeverStuck};
ghost use Rattle.fn_meaning.specs.Budget.{ExpressionsEnd, TransactionsEnd, FlowsEnd};
ghost use Rattle.fn_meaning.specs.ValueLimits.{ExpressionsStayWithin};

/// A workflow's run that is over is the same on every longer list of answers, its cost included.
pub fn run_over_stays()
    ensures { RunsOn }
{}

/// From a later count an expression gives the same with the count raised, and so do the bodies of
/// transactions and of workflows.
pub fn later_count_is_raised()
    ensures expressions { ExpressionsShift }
    ensures transactions { TransactionsShift }
    ensures flows { FlowsShift }
{}

/// A run of a sound program is never stuck.
pub fn sound_is_never_stuck()
    ensures expressions { ExpressionsNeverStuck }
    ensures flows { FlowsNeverStuck }
    ensures transactions { TxnsNeverStuck }
{}

/// A transaction writes at most 1,024 keys of 1 to 256 bytes, and has at most 4,096 read items.
pub fn transaction_keeps_limits()
    ensures { RunsWithin }
{}

/// A body ends within its units: each unit pays for at most as many nodes as the program has, and
/// a whole body evaluates at most 100,001 times as many.
pub fn body_ends_within_units()
    ensures expressions { ExpressionsEnd }
    ensures transactions { TransactionsEnd }
    ensures flows { FlowsEnd }
{}

/// What an expression gives is a value within the limits, and the word of its failure a text, where
/// the program's literals and the values that are bound are within them.
pub fn values_stay_within()
    ensures { ExpressionsStayWithin }
{}
