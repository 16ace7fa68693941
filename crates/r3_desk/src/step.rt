//! A device call that was recorded.

ghost use Rattle.std.specs.Prelude.{◌≡◌};

/// A device call that was recorded, by what it did. The bytes that writes wrote are kept elsewhere.
#[derive(Clone, Copy, Debug)]
pub enum Step {
    /// A call that changed nothing: a length, a read, or one that failed.
    Idle,
    Write { at: usize, len: usize },
    Sync,
    Say { len: usize },
    Ask,
}

impl Step {
    ghost use Rattle.r3_desk.specs.Memory.{write_len};

    // How many bytes it wrote to the disk.
    pub fn write_len(self) -> usize
        ensures { result ≡ write_len self }
    {
        match self {
            Step::Write { len, .. } => len,
            _ => 0,
        }
    }
}
