//! Laws of the definitions: each is the contract of a function that does nothing.

ghost use Rattle.std.specs.Prelude.{◌+◌, ◌^◌, ◌++◌, ◌∷◌, ◌≡◌, ◌≢◌, ◌≤◌, ◌↔◌, ℕ, List, [], cond, length, slice_get, Some, false};
ghost use Rattle.r3_entry.specs.declared.entry.Entry.{Entry};
ghost use Rattle.r3_rows.specs.declared.rows.Key.{Key};
ghost use Rattle.r3_entry.specs.History.{after_entry, map_at, version_at, writes_key};
ghost use Rattle.r3_entry.specs.Bytes.{bytes, entry, magic, open_gate, record_of, records, size};
ghost use Rattle.r3_entry.specs.Formed.{Follows, IsFormed};
ghost use Rattle.r3_entry.specs.Limits.{IsEntry};
ghost use Rattle.r3_entry.specs.Image.{IsHistoryOf};

/// No spelling of an entry begins another, so what was written is read again, whatever follows it.
pub fn one_spelling()
    ensures { (d e : Entry) (a b : List ℕ) → IsEntry d → IsEntry e → entry d ++ a ≡ entry e ++ b → (d ≡ e) × (a ≡ b) }
{}

/// The size of a history is the number of its bytes.
pub fn size_is()
    ensures { (h : List Entry) → length (bytes h) ≡ size h }
{}

/// An image stands for one history at most.
pub fn one_history()
    ensures { (image : List ℕ) (h k : List Entry) → IsHistoryOf h image → IsHistoryOf k image → h ≡ k }
{}

/// The bytes of a formed history are an image of it.
pub fn bytes_are_an_image()
    ensures { (h : List Entry) → IsFormed h → h ≢ [] → IsHistoryOf h (bytes h) }
{}

/// What stands behind a closed gate (a record that isn't committed) doesn't count.
pub fn a_closed_gate_ends()
    ensures { (h : List Entry) (gate : ℕ) (rest : List ℕ) → IsFormed h → h ≢ [] → gate ≢ open_gate → IsHistoryOf h (magic ++ records h ++ gate ∷ rest) }
{}

/// A record that is written behind the last one and committed adds its entry, and no other.
pub fn an_open_gate_adds()
    ensures { (h : List Entry) (e : Entry) (gate : ℕ) (rest : List ℕ) → IsFormed (h ++ e ∷ []) → gate ≢ open_gate → IsHistoryOf (h ++ e ∷ []) (magic ++ records h ++ record_of e ++ gate ∷ rest) }
{}

/// A key's version is at most s exactly where no entry past s writes it. (The entry at place i has the number i + 1.)
pub fn first_committer_wins()
    ensures { (h : List Entry) (key : Key) (s : ℕ) → (version_at h (length h) key ≤ s) ↔ ((i : ℕ) (e : Entry) → s ≤ i → slice_get h i ≡ Some e → writes_key e key ≡ false) }
{}

/// One more entry: its writes go over the map, what stood before it stays, and just the keys that it writes
/// get its number as their version.
pub fn one_more_entry()
    ensures map { (h : List Entry) (e : Entry) → map_at (h ++ e ∷ []) (length h + 1) ≡ after_entry (map_at h (length h)) (1 + length h, e) }
    ensures before { (h : List Entry) (e : Entry) (k : ℕ) → k ≤ length h → map_at (h ++ e ∷ []) k ≡ map_at h k }
    ensures version { (h : List Entry) (e : Entry) (key : Key) → version_at (h ++ e ∷ []) (length h + 1) key ≡ cond (writes_key e key) (1 + length h) (version_at h (length h) key) }
{}

/// A version is the number of an entry so far, or 0.
pub fn versions_are_numbers()
    ensures { (h : List Entry) (key : Key) (k : ℕ) → k ≤ length h → version_at h k key ≤ k }
{}

/// A formed history with one more entry is formed, where the entry may follow it and there is room.
pub fn formed_goes_on()
    ensures { (h : List Entry) (e : Entry) → IsFormed h → Follows h e → IsEntry e → length (entry e) ≤ 2 ^ 23 → length h + 1 ≤ 1000000 → size h + 5 + length (entry e) ≤ 2 ^ 30 → IsFormed (h ++ e ∷ []) }
{}

/// Each beginning of a formed history is formed.
pub fn beginnings_are_formed()
    ensures { (h k : List Entry) → IsFormed (h ++ k) → IsFormed h }
{}
