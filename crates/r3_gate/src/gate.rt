//! The log on a desk's disk.

ghost use Rattle.std.specs.Prelude.{◌≡◌, ◌⊎◌, ◌+◌, ◌<◌, ◌≤◌, ◌^◌, ◌++◌, ◌↔◌, [], ◌∷◌, List, ℕ, length, true, false, Err, Some, IfOk, OnOk, OnErr, IsErrOf, IsOkAnd, IsTrue, nat_lt};
ghost use Rattle.std.specs.Option.{option_map, ForSome};
ghost use Rattle.r3_desk.specs.Causes.{Rose, HasCause};
ghost use Rattle.r3_desk.specs.Moments.{LeavesImage};
ghost use Rattle.r3_gate.specs.Log.{IsLog, IsPayload, IsForeign, IsDamaged};
ghost use Rattle.r3_gate.specs.Payloads.{contents};
ghost use Rattle.r3_gate.specs.Fault.{IsStopped};
ghost use Rattle.r3_gate.specs.Gate.{Tracks, Opened};
ghost use Rattle.r3_desk.specs.Crash.{NothingPending};

use crate::fault::{GateFault, Limit};
use crate::payloads::Payloads;
use crate::reading::read_image;
use crate::record::joined;
use crate::scan::{has_magic, parse};
use r3_desk::{Desk, DiskFault};
use std::alloc::Global;

const MAX_ENTRIES: u32 = 1_000_000;

const MAX_BYTES: u64 = 1 << 30;

const OPEN: u8 = 0xa5;

/// A log: where its committed records end, and where those end that are staged behind them.
#[derive(Drop)]
pub struct Gate {
    // the ends, each with the commit byte behind it
    published: u64,
    end: u64,
    count: u32,
    // the file has no header yet
    fresh: bool,
}

impl Gate {
    /// Reads the log that the file is. It writes nothing. A file of at most 9 bytes is an empty log.
    /// `NotStore` and `Damaged` come exactly for such files; `Full` never comes.
    pub fn open<D: Desk>(alloc: Global, desk: &mut D) -> Result<(Gate, Payloads), GateFault>
        requires { NothingPending (D.image desk.old) (D.may_leave desk.old) }
        ensures ok { IfOk result (λ r. Tracks D.size D.image D.may_leave desk.new r.0 (contents r.1.list) []) }
        ensures log { IfOk result (λ r. ForSome (D.image desk.old) (λ i. IsLog i (contents r.1.list))) }
        ensures not_store { result ≡ Err GateFault.NotStore → ForSome (D.image desk.old) IsForeign }
        ensures damaged { (k : ℕ) → result ≡ Err (GateFault.Damaged k) →
            ForSome (D.image desk.old) (λ i. IsDamaged i k) }
        ensures never_full { (l : _) → result ≡ Err (GateFault.Full l) → ⊥ }

        // No other answer comes where the image is told, but for a disk that fails and want of memory.
        ensures on_log { (ps : List (List ℕ)) → ForSome (D.image desk.old) (λ i. IsLog i ps →
            IsOkAnd result (λ r. contents r.1.list ≡ ps) ⊎ IsStopped result) }
        ensures on_foreign { ForSome (D.image desk.old) (λ i. IsForeign i →
            (result ≡ Err GateFault.NotStore) ⊎ IsStopped result) }
        ensures on_damaged { (k : ℕ) → ForSome (D.image desk.old) (λ i. IsDamaged i k →
            (result ≡ Err (GateFault.Damaged k)) ⊎ IsStopped result) }

        // A crash leaves what a read gives.
        ensures crash { LeavesImage D.moment D.reach D.may_leave D.said D.asked desk.old desk.new
            (λ c. D.image desk.old ≡ Some c) }
        ensures quiet { NothingPending (D.image desk.new) (D.may_leave desk.new) }
        ensures image { D.image desk.new ≡ D.image desk.old }
        ensures syncs { D.syncs desk.new ≡ D.syncs desk.old }
        ensures disk { IsErrOf result GateFault.Disk →
            Rose (D.disk_faults desk.old) (D.disk_faults desk.new) }
        ensures no_fault { (IsErrOf result GateFault.Disk → ⊥) →
            D.disk_faults desk.new ≡ D.disk_faults desk.old }
        ensures said { D.said desk.new ≡ D.said desk.old }
        ensures asked { D.asked desk.new ≡ D.asked desk.old }
        ensures say_faults { D.say_faults desk.new ≡ D.say_faults desk.old }
        ensures ask_faults { D.ask_faults desk.new ≡ D.ask_faults desk.old }
    {
        let bytes = read_image(alloc, desk)?;
        log_of(alloc, &bytes)
    }

    /// The log's size in bytes: 9, and for each record, staged ones too, 5 and its payload's length.
    pub fn end(&self) -> u64
        ensures { result ≡ self.now.end }
    {
        self.end
    }

    /// Whether something is staged, so that `publish` may be called.
    pub fn has_staged(&self) -> bool
        ensures { result ≡ nat_lt self.now.published self.now.end }
    {
        self.published < self.end
    }

    /// The number of records, staged ones too.
    pub fn count(&self) -> u32
        ensures { result ≡ self.now.count }
    {
        self.count
    }

    // Whether one more record is within the limit on entries.
    fn has_entry_left(&self) -> bool
        ensures { IsTrue result ↔ (self.now.count < 1000000) }
    {
        self.count < MAX_ENTRIES
    }

    // Whether a record of this payload ends within the limit on bytes.
    fn has_room_for(&self, payload: &[u8]) -> bool
        requires { self.now.end ≤ 2 ^ 30 }
        ensures { IsTrue result ↔ (self.now.end + (5 + length payload.now) ≤ 2 ^ 30) }
    {
        self.end + (5 + payload.len() as u64) <= MAX_BYTES
    }

    // Writes the header of a file that has none.
    fn write_header<D: Desk>(&mut self, desk: &mut D) -> Result<(), DiskFault>
        requires { self.old.fresh ≡ true }
        ensures tracks { (ps qs : List (List ℕ)) →
            Tracks D.size D.image D.may_leave desk.old self.old ps qs →
            OnOk result (Tracks D.size D.image D.may_leave desk.new self.new ps qs) }
        ensures crash { (ps qs : List (List ℕ)) →
            Tracks D.size D.image D.may_leave desk.old self.old ps qs →
            LeavesImage D.moment D.reach D.may_leave D.said D.asked desk.old desk.new (λ c. IsLog c ps) }
        ensures reads { (ps qs : List (List ℕ)) →
            Tracks D.size D.image D.may_leave desk.old self.old ps qs →
            ForSome (D.image desk.new) (λ i. IsLog i ps) }
        ensures ready { OnOk result (self.new ≡ record self.old { fresh = false }) }
        ensures said { D.said desk.new ≡ D.said desk.old }
        ensures asked { D.asked desk.new ≡ D.asked desk.old }
        ensures say_faults { D.say_faults desk.new ≡ D.say_faults desk.old }
        ensures ask_faults { D.ask_faults desk.new ≡ D.ask_faults desk.old }
        ensures cause { HasCause (D.disk_faults desk.old) (D.disk_faults desk.new) result }
        ensures syncs { OnOk result (D.syncs desk.new ≡ option_map (λ n. n + 1) (D.syncs desk.old)) }
        ensures no_sync { OnErr result (D.syncs desk.new ≡ D.syncs desk.old) }
    {
        desk.write_at(0, b"R3STORE1\0")?;
        desk.sync()?;
        self.fresh = false;
        Ok(())
    }

    // The same, where it isn't there yet.
    fn ready<D: Desk>(&mut self, desk: &mut D) -> Result<(), DiskFault>
        ensures tracks { (ps qs : List (List ℕ)) →
            Tracks D.size D.image D.may_leave desk.old self.old ps qs →
            OnOk result (Tracks D.size D.image D.may_leave desk.new self.new ps qs) }
        ensures crash { (ps qs : List (List ℕ)) →
            Tracks D.size D.image D.may_leave desk.old self.old ps qs →
            LeavesImage D.moment D.reach D.may_leave D.said D.asked desk.old desk.new (λ c. IsLog c ps) }
        ensures reads { (ps qs : List (List ℕ)) →
            Tracks D.size D.image D.may_leave desk.old self.old ps qs →
            ForSome (D.image desk.new) (λ i. IsLog i ps) }
        ensures ready { OnOk result (self.new ≡ record self.old { fresh = false }) }
        ensures said { D.said desk.new ≡ D.said desk.old }
        ensures asked { D.asked desk.new ≡ D.asked desk.old }
        ensures say_faults { D.say_faults desk.new ≡ D.say_faults desk.old }
        ensures ask_faults { D.ask_faults desk.new ≡ D.ask_faults desk.old }
        ensures cause { HasCause (D.disk_faults desk.old) (D.disk_faults desk.new) result }
        ensures syncs { OnOk result (self.old.fresh ≡ false → D.syncs desk.new ≡ D.syncs desk.old) }
        ensures header { OnOk result (self.old.fresh ≡ true →
            D.syncs desk.new ≡ option_map (λ n. n + 1) (D.syncs desk.old)) }
        ensures at_most { (D.syncs desk.new ≡ D.syncs desk.old)
            ⊎ (D.syncs desk.new ≡ option_map (λ n. n + 1) (D.syncs desk.old)) }
        ensures no_sync { OnErr result (D.syncs desk.new ≡ D.syncs desk.old) }
    {
        if !self.fresh {
            return Ok(());
        }
        self.write_header(desk)
    }

    // Writes a first record behind the last commit byte, which stays closed.
    fn stage_first<D: Desk>(
        &mut self,
        alloc: Global,
        desk: &mut D,
        payload: &[u8],
    ) -> Result<(), GateFault>
        requires payload { IsPayload payload.now }
        requires entries { self.old.count < 1000000 }
        requires bytes { self.old.end + (5 + length payload.now) ≤ 2 ^ 30 }
        requires none { self.old.end ≤ self.old.published }
        requires tracks { (ps : List (List ℕ)) × (qs : List (List ℕ)) ×
            Tracks D.size D.image D.may_leave desk.old self.old ps qs }
        ensures tracks { (ps qs : List (List ℕ)) →
            Tracks D.size D.image D.may_leave desk.old self.old ps qs →
            OnOk result (Tracks D.size D.image D.may_leave desk.new self.new ps (qs ++ payload.now ∷ [])) }
        ensures crash { (ps qs : List (List ℕ)) →
            Tracks D.size D.image D.may_leave desk.old self.old ps qs →
            LeavesImage D.moment D.reach D.may_leave D.said D.asked desk.old desk.new (λ c. IsLog c ps) }
        ensures reads { (ps qs : List (List ℕ)) →
            Tracks D.size D.image D.may_leave desk.old self.old ps qs →
            ForSome (D.image desk.new) (λ i. IsLog i ps) }
        ensures said { D.said desk.new ≡ D.said desk.old }
        ensures asked { D.asked desk.new ≡ D.asked desk.old }
        ensures say_faults { D.say_faults desk.new ≡ D.say_faults desk.old }
        ensures ask_faults { D.ask_faults desk.new ≡ D.ask_faults desk.old }
        ensures disk { IsErrOf result GateFault.Disk →
            Rose (D.disk_faults desk.old) (D.disk_faults desk.new) }
        ensures no_fault { (IsErrOf result GateFault.Disk → ⊥) →
            D.disk_faults desk.new ≡ D.disk_faults desk.old }
        ensures memory { OnErr result ((result ≡ Err GateFault.Memory) ⊎ (result ≡ Err GateFault.Disk)) }
        ensures unchanged { result ≡ Err GateFault.Memory →
            (self.new ≡ self.old) × (desk.new ≡ desk.old) }
        ensures syncs { self.old.fresh ≡ false → D.syncs desk.new ≡ D.syncs desk.old }
        ensures header { OnOk result (self.old.fresh ≡ true →
            D.syncs desk.new ≡ option_map (λ n. n + 1) (D.syncs desk.old)) }
        ensures at_most { (D.syncs desk.new ≡ D.syncs desk.old)
            ⊎ (D.syncs desk.new ≡ option_map (λ n. n + 1) (D.syncs desk.old)) }
    {
        let block = joined(alloc, &[], payload)?;
        self.ready(desk)?;
        desk.write_at(self.end, &block)?;
        self.end += 5 + payload.len() as u64;
        self.count += 1;
        Ok(())
    }

    // Writes one more record, and opens the commit byte before it: the first one stays closed.
    fn stage_next<D: Desk>(
        &mut self,
        alloc: Global,
        desk: &mut D,
        payload: &[u8],
    ) -> Result<(), GateFault>
        requires payload { IsPayload payload.now }
        requires entries { self.old.count < 1000000 }
        requires bytes { self.old.end + (5 + length payload.now) ≤ 2 ^ 30 }
        requires some { self.old.published < self.old.end }
        requires tracks { (ps : List (List ℕ)) × (qs : List (List ℕ)) ×
            Tracks D.size D.image D.may_leave desk.old self.old ps qs }
        ensures tracks { (ps qs : List (List ℕ)) →
            Tracks D.size D.image D.may_leave desk.old self.old ps qs →
            OnOk result (Tracks D.size D.image D.may_leave desk.new self.new ps (qs ++ payload.now ∷ [])) }
        ensures crash { (ps qs : List (List ℕ)) →
            Tracks D.size D.image D.may_leave desk.old self.old ps qs →
            LeavesImage D.moment D.reach D.may_leave D.said D.asked desk.old desk.new (λ c. IsLog c ps) }
        ensures reads { (ps qs : List (List ℕ)) →
            Tracks D.size D.image D.may_leave desk.old self.old ps qs →
            ForSome (D.image desk.new) (λ i. IsLog i ps) }
        ensures said { D.said desk.new ≡ D.said desk.old }
        ensures asked { D.asked desk.new ≡ D.asked desk.old }
        ensures say_faults { D.say_faults desk.new ≡ D.say_faults desk.old }
        ensures ask_faults { D.ask_faults desk.new ≡ D.ask_faults desk.old }
        ensures disk { IsErrOf result GateFault.Disk →
            Rose (D.disk_faults desk.old) (D.disk_faults desk.new) }
        ensures no_fault { (IsErrOf result GateFault.Disk → ⊥) →
            D.disk_faults desk.new ≡ D.disk_faults desk.old }
        ensures memory { OnErr result ((result ≡ Err GateFault.Memory) ⊎ (result ≡ Err GateFault.Disk)) }
        ensures unchanged { result ≡ Err GateFault.Memory →
            (self.new ≡ self.old) × (desk.new ≡ desk.old) }
        ensures syncs { D.syncs desk.new ≡ D.syncs desk.old }
    {
        let block = joined(alloc, &[OPEN], payload)?;
        desk.write_at(self.end - 1, &block)?;
        self.end += 5 + payload.len() as u64;
        self.count += 1;
        Ok(())
    }

    /// Writes one more record, which a crash forgets until it is published. A payload has 1 to 2^23
    /// bytes. `Full` comes where the log would pass a limit. After `Disk` the log isn't used again, and
    /// the disk is opened anew; after any other fault nothing has changed.
    pub fn stage<D: Desk>(
        &mut self,
        alloc: Global,
        desk: &mut D,
        payload: &[u8],
    ) -> Result<(), GateFault>
        requires payload { IsPayload payload.now }
        requires tracks { (ps : List (List ℕ)) × (qs : List (List ℕ)) ×
            Tracks D.size D.image D.may_leave desk.old self.old ps qs }
        ensures tracks { (ps qs : List (List ℕ)) →
            Tracks D.size D.image D.may_leave desk.old self.old ps qs →
            OnOk result (Tracks D.size D.image D.may_leave desk.new self.new ps (qs ++ payload.now ∷ [])) }

        // A crash at any moment leaves what was published, and so reads the disk, whatever the answer.
        ensures crash { (ps qs : List (List ℕ)) →
            Tracks D.size D.image D.may_leave desk.old self.old ps qs →
            LeavesImage D.moment D.reach D.may_leave D.said D.asked desk.old desk.new (λ c. IsLog c ps) }
        ensures reads { (ps qs : List (List ℕ)) →
            Tracks D.size D.image D.may_leave desk.old self.old ps qs →
            ForSome (D.image desk.new) (λ i. IsLog i ps) }
        ensures entries { (result ≡ Err (GateFault.Full Limit.Entries)) ↔ (1000000 ≤ self.old.count) }
        ensures bytes { (result ≡ Err (GateFault.Full Limit.Bytes))
            ↔ ((self.old.count < 1000000) × (2 ^ 30 < self.old.end + (5 + length payload.now))) }
        ensures disk { IsErrOf result GateFault.Disk →
            Rose (D.disk_faults desk.old) (D.disk_faults desk.new) }
        ensures no_fault { (IsErrOf result GateFault.Disk → ⊥) →
            D.disk_faults desk.new ≡ D.disk_faults desk.old }
        ensures others { (result ≡ Err GateFault.NotStore → ⊥)
            × ((k : ℕ) → result ≡ Err (GateFault.Damaged k) → ⊥) }
        ensures unchanged { OnErr result ((result ≡ Err GateFault.Disk → ⊥) →
            (self.new ≡ self.old) × (desk.new ≡ desk.old)) }

        // The header of a new file costs a sync, and nothing else does.
        ensures syncs { 0 < self.old.count → D.syncs desk.new ≡ D.syncs desk.old }
        ensures at_most { (D.syncs desk.new ≡ D.syncs desk.old)
            ⊎ (D.syncs desk.new ≡ option_map (λ n. n + 1) (D.syncs desk.old)) }
        ensures said { D.said desk.new ≡ D.said desk.old }
        ensures asked { D.asked desk.new ≡ D.asked desk.old }
        ensures say_faults { D.say_faults desk.new ≡ D.say_faults desk.old }
        ensures ask_faults { D.ask_faults desk.new ≡ D.ask_faults desk.old }
    {
        if !self.has_entry_left() {
            return Err(GateFault::Full {
                limit: Limit::Entries,
            });
        }
        if !self.has_room_for(payload) {
            return Err(GateFault::Full {
                limit: Limit::Bytes,
            });
        }
        if self.published < self.end {
            return self.stage_next(alloc, desk, payload);
        }
        self.stage_first(alloc, desk, payload)
    }

    /// Commits all that is staged: from then on it is there after any crash. Something is staged. The
    /// only fault is `Disk`; after it the log isn't used again, and the disk is opened anew.
    pub fn publish<D: Desk>(&mut self, desk: &mut D) -> Result<(), GateFault>
        requires { (ps : List (List ℕ)) × (q : List ℕ) × (qs : List (List ℕ)) ×
            Tracks D.size D.image D.may_leave desk.old self.old ps (q ∷ qs) }
        ensures tracks { (ps qs : List (List ℕ)) →
            Tracks D.size D.image D.may_leave desk.old self.old ps qs →
            OnOk result (Tracks D.size D.image D.may_leave desk.new self.new (ps ++ qs) []) }

        // A crash at any moment leaves what was published, with all that was staged or without, and so
        // reads the disk.
        ensures crash { (ps qs : List (List ℕ)) →
            Tracks D.size D.image D.may_leave desk.old self.old ps qs →
            LeavesImage D.moment D.reach D.may_leave D.said D.asked desk.old desk.new
            (λ c. IsLog c ps ⊎ IsLog c (ps ++ qs)) }
        ensures reads { (ps qs : List (List ℕ)) →
            Tracks D.size D.image D.may_leave desk.old self.old ps qs →
            ForSome (D.image desk.new) (λ i. IsLog i ps ⊎ IsLog i (ps ++ qs)) }
        ensures only_disk { OnErr result (result ≡ Err GateFault.Disk) }
        ensures disk { IsErrOf result GateFault.Disk →
            Rose (D.disk_faults desk.old) (D.disk_faults desk.new) }
        ensures no_fault { (IsErrOf result GateFault.Disk → ⊥) →
            D.disk_faults desk.new ≡ D.disk_faults desk.old }
        ensures numbers { (self.new.end ≡ self.old.end) × (self.new.count ≡ self.old.count) }
        ensures syncs { OnOk result (D.syncs desk.new ≡ option_map (λ n. n + 2) (D.syncs desk.old)) }
        ensures at_most { (D.syncs desk.new ≡ D.syncs desk.old)
            ⊎ (D.syncs desk.new ≡ option_map (λ n. n + 1) (D.syncs desk.old))
            ⊎ (D.syncs desk.new ≡ option_map (λ n. n + 2) (D.syncs desk.old)) }
        ensures said { D.said desk.new ≡ D.said desk.old }
        ensures asked { D.asked desk.new ≡ D.asked desk.old }
        ensures say_faults { D.say_faults desk.new ≡ D.say_faults desk.old }
        ensures ask_faults { D.ask_faults desk.new ≡ D.ask_faults desk.old }
    {
        // The records are synced first: behind an open commit byte a torn one would count.
        desk.sync()?;
        desk.write_at(self.published - 1, &[OPEN])?;
        desk.sync()?;
        self.published = self.end;
        Ok(())
    }
}

// The log that a file's bytes are, of which no more than a log's limit were read.
fn log_of(alloc: Global, bytes: &[u8]) -> Result<(Gate, Payloads), GateFault>
    requires { length bytes.now ≤ 2 ^ 30 }
    ensures ok { IfOk result (λ r. Opened bytes.now r.0 (contents r.1.list)) }
    ensures not_store { result ≡ Err GateFault.NotStore → IsForeign bytes.now }
    ensures damaged { (k : ℕ) → result ≡ Err (GateFault.Damaged k) → IsDamaged bytes.now k }
    ensures never_full { (l : _) → result ≡ Err (GateFault.Full l) → ⊥ }
    ensures never_disk { result ≡ Err GateFault.Disk → ⊥ }
{
    if bytes.len() <= 9 {
        let gate = Gate {
            published: 9,
            end: 9,
            count: 0,
            fresh: true,
        };
        let list = Vec::new(alloc);
        return Ok((gate, Payloads { list }));
    }
    if !has_magic(bytes) {
        return Err(GateFault::NotStore);
    }
    let (list, at) = match parse(alloc, bytes) {
        Ok(parsed) => parsed,
        Err(fault) => return Err(fault),
    };
    let end = at as u64 + 1;
    let gate = Gate {
        published: end,
        end,
        count: list.len() as u32,
        fresh: false,
    };
    Ok((gate, Payloads { list }))
}
