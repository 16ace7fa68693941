//! What is left of a drain within a round.

ghost use Rattle.std.specs.Prelude.{◌≡◌, ◌-◌, ◌<◌, ◌||◌};

/// What a round may still take, and whether it has changed something.
#[derive(Clone, Copy, Debug)]
pub struct Round {
    /// So many dequeues and turns are left, of the whole drain.
    pub left: u32,
    /// A dequeue started a workflow, or a turn went on.
    pub changed: bool,
}

impl Round {
    /// One dequeue or turn was done, which has changed something or not.
    pub fn take(&mut self, has_changed: bool)
        requires { 0 < self.old.left }
        ensures left { self.new.left ≡ self.old.left - 1 }
        ensures changed { self.new.changed ≡ self.old.changed || has_changed }
    {
        self.left -= 1;
        self.changed |= has_changed;
    }
}
