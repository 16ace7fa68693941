//! The states of the machine.

use r3_entry::Entry;
use r3_value::Txt;
use std::alloc::Global;
use std::collections::BTreeMap;

/// A history, numbered from 1, and the open snapshots by the IDs of their workflows.
#[derive(Drop)]
pub struct State {
    pub(crate) history: Vec<Entry>,
    pub(crate) begun: BTreeMap<Txt, u32>,
}

impl State {
    ghost use Rattle.std.specs.Prelude.{◌≡◌};
    ghost use Rattle.r3_entry.specs.Formed.{IsFormed};
    ghost use Rattle.r3_model.specs.Language.{Language};
    ghost use Rattle.r3_model.specs.Run.{empty, restarted};
    ghost use Rattle.r3_model.specs.Valid.{AreOpen};
    ghost use Rattle.r3_plain.specs.Words.{state_of};

    /// No entries, and no open snapshots.
    pub fn new(alloc: Global) -> State
        ensures state { state_of result ≡ empty }
        ensures formed { IsFormed (state_of result).history }
        ensures snapshots { (language : Language) → AreOpen language (state_of result) }
    {
        State {
            history: Vec::new(alloc),
            begun: BTreeMap::new(alloc),
        }
    }

    /// The entries.
    pub fn history(&self) -> &[Entry]
        ensures { result.now ≡ (state_of self.now).history }
    {
        self.history.as_slice()
    }

    /// A restart keeps the history alone.
    pub fn restart(&mut self, alloc: Global)
        ensures state { state_of self.new ≡ restarted (state_of self.old).history }
        ensures snapshots { (language : Language) → AreOpen language (state_of self.new) }
    {
        self.begun = BTreeMap::new(alloc);
    }
}
