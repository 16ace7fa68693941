//! One more entry.

ghost use Rattle.std.specs.Prelude.{◌+◌, ◌<◌, ◌^◌, take, None, Err, vec_len, vec_capacity, ◌≡◌, ◌⊎◌, ◌++◌, ◌∷◌, ◌≤◌, [], List, ℕ, length, map, Some, OnOk, OnErr, IfOk, IsErrOf};
ghost use Rattle.std.specs.Option.{option_map, ForSome};
ghost use Rattle.r3_desk.specs.Causes.{Rose};
ghost use Rattle.r3_desk.specs.Moments.{LeavesImage};
ghost use Rattle.r3_entry.specs.declared.entry.Entry.{Entry};
ghost use Rattle.r3_entry.specs.Image.{IsHistoryOf};
ghost use Rattle.r3_entry.specs.Limits.{IsEntry};
ghost use Rattle.r3_entry.specs.Bytes.{entry as spelled, size};
ghost use Rattle.r3_rows.specs.Keys.{key_cmp};
ghost use Rattle.r3_chain.specs.Versions.{key_set};
ghost use Rattle.r3_snap.specs.Conflicts.{keys_of, conflict_past};
ghost use Rattle.r3_gate.specs.Gate.{Tracks};
ghost use Rattle.r3_gate.specs.Log.{IsLog, IsPayload};
ghost use Rattle.r3_formed.specs.Past.{AreReady, HasRoom, all_installed, first_conflict};
ghost use Rattle.r3_formed.specs.Answers.{text_at, text_of};
ghost use Rattle.r3_store.specs.Holds.{Stands, Holds, IsReadable, SameStore, MayFollow};

use crate::Store;
use crate::fault::CommitFault;
use crate::store::let_go;
use r3_desk::Desk;
use r3_entry::{Entry, encode, first_committer_wins, formed_goes_on};
use r3_formed::{history_goes_on, install_all, make_room, put_text, versions_are_few};
use r3_gate::{GateFault, Limit, reads_as_published};
use r3_snap::{WriteSet, conflict};
use r3_value::Memory;
use std::alloc::Global;

impl Store {
    // Finds a conflict, and takes all the memory that a commit needs.
    fn prepare(&mut self, alloc: Global, entry: &Entry) -> Result<Vec<u8>, CommitFault>
        requires limits { IsEntry entry.now }
        requires room { HasRoom self.old.chains (length entry.now.writes) }
        ensures bytes { IfOk result (λ payload. payload.items ≡ spelled entry.now) }
        ensures room { OnOk result (self.new.chains.room
            ≡ key_set key_cmp (keys_of entry.now.writes)) }
        ensures text_room { OnOk result (vec_len self.new.texts < vec_capacity self.new.texts) }
        ensures same { SameStore self.old self.new }
        ensures conflict { (j : ℕ) → result ≡ Err (CommitFault.Conflict j) →
            conflict_past entry.now.snap (keys_of entry.now.writes) self.old.chains.versions ≡ Some j }
        ensures found { (j : ℕ) →
            conflict_past entry.now.snap (keys_of entry.now.writes) self.old.chains.versions ≡ Some j →
            (result ≡ Err (CommitFault.Conflict j)) ⊎ (result ≡ Err CommitFault.Memory) }
        ensures no_conflict { OnOk result
            (conflict_past entry.now.snap (keys_of entry.now.writes) self.old.chains.versions ≡ None) }
        ensures others { (result ≡ Err CommitFault.Disk → ⊥)
            × ((l : _) → result ≡ Err (CommitFault.Full l) → ⊥) }
    {
        let Ok(writes) = WriteSet::of(alloc, &entry.writes) else {
            return Err(CommitFault::Memory);
        };
        if let Some(entry) = conflict(&self.chains, &writes, entry.snap) {
            return Err(CommitFault::Conflict { entry });
        }
        let Ok(payload) = encode(alloc, entry) else {
            return Err(CommitFault::Memory);
        };
        if self.texts.reserve(1).is_err() {
            return Err(CommitFault::Memory);
        }
        match make_room(alloc, &mut self.chains, writes.into_keys()) {
            Ok(()) => Ok(payload),
            Err(_) => Err(CommitFault::Memory),
        }
    }

    // Writes the record of an entry, uncommitted.
    fn append<D: Desk>(
        &mut self,
        alloc: Global,
        desk: &mut D,
        payload: &[u8],
    ) -> Result<u32, CommitFault>
        requires payload { IsPayload payload.now }
        requires tracks { (ps : List (List ℕ)) × (qs : List (List ℕ)) ×
            Tracks D.size D.image D.may_leave desk.old self.old.gate ps qs }
        ensures tracks { (ps qs : List (List ℕ)) →
            Tracks D.size D.image D.may_leave desk.old self.old.gate ps qs →
            OnOk result
            (Tracks D.size D.image D.may_leave desk.new self.new.gate ps (qs ++ payload.now ∷ [])) }
        ensures number { IfOk result (λ n. n ≡ self.new.gate.count) }
        ensures chains { self.new ≡ record self.old { gate = self.new.gate } }
        ensures crash { (ps qs : List (List ℕ)) →
            Tracks D.size D.image D.may_leave desk.old self.old.gate ps qs →
            LeavesImage D.moment D.reach D.may_leave D.said D.asked desk.old desk.new
            (λ c. IsLog c ps) }
        ensures reads { (ps qs : List (List ℕ)) →
            Tracks D.size D.image D.may_leave desk.old self.old.gate ps qs →
            ForSome (D.image desk.new) (λ i. IsLog i ps) }
        ensures entries { result ≡ Err (CommitFault.Full Limit.Entries) →
            1000000 ≤ self.old.gate.count }
        ensures bytes { result ≡ Err (CommitFault.Full Limit.Bytes) →
            (self.old.gate.count < 1000000)
            × (2 ^ 30 < self.old.gate.end + (5 + length payload.now)) }
        ensures room { OnOk result ((self.old.gate.count < 1000000)
            × (self.old.gate.end + (5 + length payload.now) ≤ 2 ^ 30)) }
        ensures disk_room { result ≡ Err CommitFault.Disk →
            (self.old.gate.count < 1000000)
            × (self.old.gate.end + (5 + length payload.now) ≤ 2 ^ 30) }
        ensures no_conflict { (j : ℕ) → result ≡ Err (CommitFault.Conflict j) → ⊥ }
        ensures disk { IsErrOf result CommitFault.Disk →
            Rose (D.disk_faults desk.old) (D.disk_faults desk.new) }
        ensures no_fault { (IsErrOf result CommitFault.Disk → ⊥) →
            D.disk_faults desk.new ≡ D.disk_faults desk.old }
        ensures unchanged { OnErr result ((result ≡ Err CommitFault.Disk → ⊥) →
            (self.new ≡ self.old) × (desk.new ≡ desk.old)) }
        ensures syncs { 0 < self.old.gate.count → D.syncs desk.new ≡ D.syncs desk.old }
        ensures at_most { (D.syncs desk.new ≡ D.syncs desk.old)
            ⊎ (D.syncs desk.new ≡ option_map (λ n. n + 1) (D.syncs desk.old)) }
        ensures said { D.said desk.new ≡ D.said desk.old }
        ensures asked { D.asked desk.new ≡ D.asked desk.old }
        ensures say_faults { D.say_faults desk.new ≡ D.say_faults desk.old }
        ensures ask_faults { D.ask_faults desk.new ≡ D.ask_faults desk.old }
    {
        match self.gate.stage(alloc, desk, payload) {
            Ok(()) => Ok(self.gate.count()),
            Err(GateFault::Full { limit }) => Err(CommitFault::Full { limit }),
            Err(GateFault::Disk) => Err(CommitFault::Disk),
            Err(_) => Err(CommitFault::Memory),
        }
    }

    // The writes of an entry become versions, and its text is kept. It takes no memory.
    fn install(&mut self, number: u32, entry: Entry)
        requires ready { AreReady number entry.writes self.old.chains.room self.old.chains.versions }
        requires text_room { vec_len self.old.texts < vec_capacity self.old.texts }
        ensures versions { self.new.chains.versions
            ≡ all_installed number entry.writes self.old.chains.versions }
        ensures texts { map text_of self.new.texts.items
            ≡ map text_of self.old.texts.items ++ text_at number entry.act }
        ensures others { (self.new.gate ≡ self.old.gate) × (self.new.pins ≡ self.old.pins)
            × (self.new.oldest ≡ self.old.oldest) }
    {
        let Entry {
            act,
            snap: _,
            reads: _,
            writes,
        } = entry;
        put_text(&mut self.texts, number, act);
        install_all(&mut self.chains, number, writes.into_list());
    }

    /// Adds an entry, which a crash forgets until it is settled, and tells its number. All memory is taken
    /// before its record is written. A conflict stands before a limit. After `Disk` the store isn't used
    /// again: open it anew.
    ///
    /// As the next entry, it keeps the rules of formed histories, but for the one on conflicts.
    pub fn commit<D: Desk>(
        &mut self,
        alloc: Global,
        desk: &mut D,
        entry: Entry,
    ) -> Result<u32, CommitFault>
        requires limits { IsEntry entry }
        requires payload { length (spelled entry) ≤ 2 ^ 23 }
        requires readable { IsReadable self.old entry.snap }
        requires holds { (h : List Entry) × (k : ℕ)
            × Holds D.size D.image D.may_leave desk.old self.old h k }
        ensures ok { (h : List Entry) (k : ℕ) →
            Holds D.size D.image D.may_leave desk.old self.old h k → MayFollow h entry →
            IfOk result (λ n. (n ≡ length h + 1)
            × Holds D.size D.image D.may_leave desk.new self.new (h ++ entry ∷ []) k) }
        ensures pins { OnOk result (self.new.pins ≡ self.old.pins) }

        // The first entry past the snapshot that wrote one of the keys.
        ensures conflict { (h : List Entry) → Stands self.old h → (j : ℕ) →
            result ≡ Err (CommitFault.Conflict j) →
            first_conflict h entry.snap (keys_of entry.writes) ≡ Some j }
        ensures found { (h : List Entry) → Stands self.old h → (j : ℕ) →
            first_conflict h entry.snap (keys_of entry.writes) ≡ Some j →
            (result ≡ Err (CommitFault.Conflict j)) ⊎ (result ≡ Err CommitFault.Memory) }
        ensures entries { (h : List Entry) → Stands self.old h →
            result ≡ Err (CommitFault.Full Limit.Entries) → 1000000 ≤ length h }
        ensures bytes { (h : List Entry) (k : ℕ) →
            Holds D.size D.image D.may_leave desk.old self.old h k →
            result ≡ Err (CommitFault.Full Limit.Bytes) →
            (length h < 1000000) × (2 ^ 30 < size h + (5 + length (spelled entry))) }
        ensures room { (h : List Entry) (k : ℕ) →
            Holds D.size D.image D.may_leave desk.old self.old h k →
            OnOk result ((length h < 1000000) × (size h + (5 + length (spelled entry)) ≤ 2 ^ 30)) }
        ensures disk_room { (h : List Entry) (k : ℕ) →
            Holds D.size D.image D.may_leave desk.old self.old h k →
            result ≡ Err CommitFault.Disk →
            (length h < 1000000) × (size h + (5 + length (spelled entry)) ≤ 2 ^ 30) }

        // A crash at any moment leaves what was settled, and so reads the disk, whatever the answer.
        ensures crash { (h : List Entry) (k : ℕ) →
            Holds D.size D.image D.may_leave desk.old self.old h k →
            LeavesImage D.moment D.reach D.may_leave D.said D.asked desk.old desk.new
            (IsHistoryOf (take k h)) }
        ensures reads { (h : List Entry) (k : ℕ) →
            Holds D.size D.image D.may_leave desk.old self.old h k →
            ForSome (D.image desk.new) (IsHistoryOf (take k h)) }
        ensures disk { IsErrOf result CommitFault.Disk →
            Rose (D.disk_faults desk.old) (D.disk_faults desk.new) }
        ensures no_fault { (IsErrOf result CommitFault.Disk → ⊥) →
            D.disk_faults desk.new ≡ D.disk_faults desk.old }
        ensures unchanged { OnErr result ((result ≡ Err CommitFault.Disk → ⊥) →
            SameStore self.old self.new × (desk.new ≡ desk.old)) }

        // The header of a new file costs a sync, and nothing else does.
        ensures syncs { (h : List Entry) → Stands self.old h → 0 < length h →
            D.syncs desk.new ≡ D.syncs desk.old }
        ensures at_most { (D.syncs desk.new ≡ D.syncs desk.old)
            ⊎ (D.syncs desk.new ≡ option_map (λ n. n + 1) (D.syncs desk.old)) }
        ensures said { D.said desk.new ≡ D.said desk.old }
        ensures asked { D.asked desk.new ≡ D.asked desk.old }
        ensures say_faults { D.say_faults desk.new ≡ D.say_faults desk.old }
        ensures ask_faults { D.ask_faults desk.new ≡ D.ask_faults desk.old }
    {
        reads_as_published::<D>();
        versions_are_few();
        let payload = match self.prepare(alloc, &entry) {
            Ok(payload) => payload,
            Err(fault) => {
                let_go(entry);
                return Err(fault);
            }
        };
        match self.append(alloc, desk, &payload) {
            Ok(number) => {
                history_goes_on();
                self.install(number, entry);
                first_committer_wins();
                formed_goes_on();
                Ok(number)
            }
            Err(fault) => {
                let_go(entry);
                Err(fault)
            }
        }
    }
}
