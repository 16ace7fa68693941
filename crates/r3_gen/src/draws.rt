//! The numbers that are drawn.

ghost use Rattle.std.specs.Prelude.{◌≡◌};
ghost use Rattle.r3_model.specs.Generator.{drawn, draw_of};

const FACTOR: u128 = 25_214_903_917;

const KEPT: u128 = 1 << 48;

/// A sequence of numbers below 2^32: the linear congruential generator of `drand48` (POSIX), of whose 48 bits the
/// highest 32 are given.
#[derive(Clone, Copy, Debug)]
pub struct Draws {
    pub kept: u64,
}

impl Draws {
    /// The next number.
    pub fn draw(&mut self) -> u64
        ensures kept { self.new.kept ≡ drawn self.old.kept }
        ensures drawn { result ≡ draw_of self.new.kept }
    {
        self.kept = ((u128::from(self.kept) * FACTOR + 11) % KEPT) as u64;
        self.kept >> 16
    }
}
