// The disk, the output and the outside party in one trait, since the order between them is what "acknowledged" means.
ghost use Rattle.std.specs.Prelude.{◌≡◌, ◌⊎◌, ◌+◌, ◌<◌, ◌≤◌, ◌++◌, [], max, List, ℕ, length, take, drop, Some, IfOk, OnOk, OnErr, IsErrOf, MatchResult};
ghost use Rattle.std.specs.Option.{option_map, ForSome};
ghost use Rattle.std.specs.declared.option.Option.{Option};
ghost use Rattle.std.specs.Io.{ReadsAtMost};
ghost use Rattle.r3_desk.specs.Asked.{Call, asked_after};
ghost use Rattle.r3_desk.specs.Causes.{Rose, HasCause};
ghost use Rattle.r3_desk.specs.Crash.{Reach, Follows, NothingPending, GoesOn};
ghost use Rattle.r3_desk.specs.Disk.{overwritten, MayTear, Torn, told_len, told_push};
ghost use Rattle.r3_desk.specs.declared.desk.AskFault.TheVariants.{Memory};

use r3_value::{Outcome, Val};
use std::alloc::AllocError;
use thiserror::Error;

/// The disk has failed.
#[derive(Clone, Copy, Debug, PartialEq, Eq, Error)]
#[error("the disk has failed")]
pub struct DiskFault;

/// The output has failed.
#[derive(Clone, Copy, Debug, PartialEq, Eq, Error)]
#[error("the output has failed")]
pub struct SayFault;

/// Why an external call gives no answer.
#[derive(Clone, Copy, Debug, PartialEq, Eq, Error)]
pub enum AskFault {
    /// The call has failed.
    #[error("the external call has failed")]
    Fault,
    /// There was no memory, and the call wasn't made.
    #[error("out of memory")]
    Memory,
}

impl From<AllocError> for AskFault {
    ghost from_gives = { λ _ e. e ≡ Memory };

    fn from(_: AllocError) -> Self {
        AskFault::Memory
    }
}

impl From<r3_value::Memory> for AskFault {
    ghost from_gives = { λ _ e. e ≡ Memory };

    fn from(_: r3_value::Memory) -> Self {
        AskFault::Memory
    }
}

/// Each meaning is None, or empty, where the desk doesn't tell it.
pub trait Desk {
    /// The size of the disk's image.
    ghost size: { Self → Option ℕ };

    /// The image, as a read gives it.
    ghost image: { Self → Option (List ℕ) };

    /// The bytes said.
    ghost said: { Self → Option (List ℕ) };

    /// The calls asked, with their answers.
    ghost asked: { Self → Option (List Call) };

    /// How often the disk was synced.
    ghost syncs: { Self → Option ℕ };

    /// The moment, as a number that doesn't fall.
    ghost moment: { Self → ℕ };

    /// What a crash at this moment may leave; nothing where it isn't told.
    ghost may_leave: { Self → List ℕ → Type 0 };

    /// What a crash at some moment since that one may have left, during a call or between two, with the numbers of
    /// bytes said and of calls asked by then.
    ghost reach: { Self → Reach };

    /// How often the disk, the output and the outside party have failed.
    ghost disk_faults: { Self → ℕ };

    ghost say_faults: { Self → ℕ };

    ghost ask_faults: { Self → ℕ };

    fn len(&mut self) -> Result<u64, DiskFault>
        ensures size { IfOk result (λ n. ForSome (size self.old) (λ told. n ≡ told)) }
        ensures image { image self.new ≡ image self.old }
        ensures same_size { size self.new ≡ size self.old }
        ensures said { said self.new ≡ said self.old }
        ensures asked { asked self.new ≡ asked self.old }
        ensures syncs { syncs self.new ≡ syncs self.old }
        ensures pending { (c : List ℕ) → may_leave self.new c → may_leave self.old c }
        ensures time { GoesOn moment reach may_leave said asked self.old self.new }
        ensures cause { HasCause (disk_faults self.old) (disk_faults self.new) result }
        ensures say_faults { say_faults self.new ≡ say_faults self.old }
        ensures ask_faults { ask_faults self.new ≡ ask_faults self.old };

    /// Reads from an offset. It gives 0 only where `into` is empty or the offset isn't below the size.
    fn read(&mut self, at: u64, into: &mut [u8]) -> Result<usize, DiskFault>
        ensures bound { ReadsAtMost result into.new }
        ensures bytes { IfOk result (λ n. ForSome (image self.old) (λ told. take n into.new ≡ take n (drop at told))) }
        ensures within { IfOk result (λ n. ForSome (size self.old) (λ told. 0 < n → at + n ≤ told)) }
        ensures end { IfOk result (λ n. ForSome (size self.old) (λ told. n ≡ 0 → (length into.new ≡ 0) ⊎ (told ≤ at))) }
        ensures image { image self.new ≡ image self.old }
        ensures same_size { size self.new ≡ size self.old }
        ensures said { said self.new ≡ said self.old }
        ensures asked { asked self.new ≡ asked self.old }
        ensures syncs { syncs self.new ≡ syncs self.old }
        ensures pending { (c : List ℕ) → may_leave self.new c → may_leave self.old c }
        ensures time { GoesOn moment reach may_leave said asked self.old self.new }
        ensures cause { HasCause (disk_faults self.old) (disk_faults self.new) result }
        ensures say_faults { say_faults self.new ≡ say_faults self.old }
        ensures ask_faults { ask_faults self.new ≡ ask_faults self.old };

    /// Writes over what is there, and past the end. Until a sync, a crash may leave any bytes in the range.
    fn write_at(&mut self, at: u64, bytes: &[u8]) -> Result<(), DiskFault>
        requires { ForSome (size self.old) (λ told. at ≤ told) }
        ensures written { OnOk result (image self.new ≡ option_map (λ old. overwritten old at bytes.now) (image self.old)) }
        ensures failed { OnErr result (MayTear at (length bytes.now) (image self.old) (image self.new)) }
        ensures size { OnOk result (size self.new ≡ option_map (λ old. max old (at + length bytes.now)) (size self.old)) }
        ensures said { said self.new ≡ said self.old }
        ensures asked { asked self.new ≡ asked self.old }
        ensures syncs { syncs self.new ≡ syncs self.old }
        ensures pending { Follows (Torn at (length bytes.now)) (may_leave self.old) (may_leave self.new) }
        ensures time { GoesOn moment reach may_leave said asked self.old self.new }
        ensures cause { HasCause (disk_faults self.old) (disk_faults self.new) result }
        ensures say_faults { say_faults self.new ≡ say_faults self.old }
        ensures ask_faults { ask_faults self.new ≡ ask_faults self.old };

    /// After it, a crash leaves what a read gives.
    fn sync(&mut self) -> Result<(), DiskFault>
        ensures durable { OnOk result (NothingPending (image self.old) (may_leave self.new)) }
        ensures image { image self.new ≡ image self.old }
        ensures same_size { size self.new ≡ size self.old }
        ensures said { said self.new ≡ said self.old }
        ensures asked { asked self.new ≡ asked self.old }
        ensures syncs { MatchResult result (λ _. syncs self.new ≡ option_map (λ n. n + 1) (syncs self.old)) (λ _. syncs self.new ≡ syncs self.old) }
        ensures pending { (c : List ℕ) → may_leave self.new c → may_leave self.old c }
        ensures time { GoesOn moment reach may_leave said asked self.old self.new }
        ensures cause { HasCause (disk_faults self.old) (disk_faults self.new) result }
        ensures say_faults { say_faults self.new ≡ say_faults self.old }
        ensures ask_faults { ask_faults self.new ≡ ask_faults self.old };

    /// Says all of the bytes, or at a fault some first part of them.
    fn say(&mut self, bytes: &[u8]) -> Result<(), SayFault>
        ensures all { OnOk result (said self.new ≡ told_push (said self.old) bytes.now) }
        ensures part { OnErr result ((k : ℕ) × (k ≤ length bytes.now) × (said self.new ≡ told_push (said self.old) (take k bytes.now))) }
        ensures image { image self.new ≡ image self.old }
        ensures same_size { size self.new ≡ size self.old }
        ensures asked { asked self.new ≡ asked self.old }
        ensures syncs { syncs self.new ≡ syncs self.old }
        ensures pending { (c : List ℕ) → may_leave self.new c → may_leave self.old c }
        ensures time { GoesOn moment reach may_leave said asked self.old self.new }
        ensures disk_faults { disk_faults self.new ≡ disk_faults self.old }
        ensures cause { HasCause (say_faults self.old) (say_faults self.new) result }
        ensures ask_faults { ask_faults self.new ≡ ask_faults self.old };

    /// Asks the outside party. A call that finds no memory isn't made.
    fn ask(&mut self, id: &str, number: u32, name: &str, args: &Val) -> Result<Outcome, AskFault>
        ensures asked { asked self.new ≡ asked_after (asked self.old) id.now number name.now args.now result }
        ensures image { image self.new ≡ image self.old }
        ensures same_size { size self.new ≡ size self.old }
        ensures said { said self.new ≡ said self.old }
        ensures syncs { syncs self.new ≡ syncs self.old }
        ensures pending { (c : List ℕ) → may_leave self.new c → may_leave self.old c }
        ensures time { GoesOn moment reach may_leave said asked self.old self.new }
        ensures disk_faults { disk_faults self.new ≡ disk_faults self.old }
        ensures say_faults { say_faults self.new ≡ say_faults self.old }
        ensures never_falls { ask_faults self.old ≤ ask_faults self.new }
        ensures fault { IsErrOf result AskFault.Fault → Rose (ask_faults self.old) (ask_faults self.new) }
        ensures no_fault { (IsErrOf result AskFault.Fault → ⊥) → ask_faults self.new ≡ ask_faults self.old };

    /// The size told is that of the image told.
    ghost sized: { (desk : Self) (told : List ℕ) → image desk ≡ Some told → size desk ≡ Some (length told) };

    /// A crash now is one at some moment since an earlier one.
    ghost counts_now: { (desk : Self) (t : ℕ) (c : List ℕ) → t ≤ moment desk → may_leave desk c →
        reach desk t c (told_len (said desk)) (told_len (asked desk)) };

    /// Since now there is no other moment.
    ghost only_now: { (desk : Self) (c : List ℕ) (n m : ℕ) → reach desk (moment desk) c n m →
        may_leave desk c × (n ≡ told_len (said desk)) × (m ≡ told_len (asked desk)) };
}
