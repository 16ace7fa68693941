//! Laws of the definitions: each is the contract of a function that does nothing.

ghost use Rattle.std.specs.Prelude.{◌≡◌, ◌+◌, ◌≤◌, ◌^◌, ◌++◌, ◌∷◌, [], ℕ, IsTrue, List, Some, length};
ghost use Rattle.std.specs.FinMap.Entries.{is_sorted};
ghost use Rattle.r3_rows.specs.Keys.{key_cmp};
ghost use Rattle.r3_rows.specs.declared.rows.Cell.{Cell};
ghost use Rattle.r3_rows.specs.declared.rows.Key.{Key};
ghost use Rattle.r3_entry.specs.declared.entry.Entry.{Entry};
ghost use Rattle.r3_entry.specs.Bytes.{entry as spelled, size};
ghost use Rattle.r3_chain.specs.Versions.{Versions, kept_count, key_set, trimmed_all};
ghost use Rattle.r3_snap.specs.Conflicts.{keys_of};
ghost use Rattle.r3_formed.specs.Answers.{program_texts, text_at};
ghost use Rattle.r3_formed.specs.Past.{AreReady, StandFor, all_installed, first_conflict, first_write, first_writer};
ghost use Rattle.r3_formed.specs.PastLaws.{IsFirstWrite};

/// The first write of a key past a snapshot is that of the least entry past it that writes the key.
pub fn first_write_is()
    ensures { (h : List Entry) (snap : ℕ) (key : Key) (n : ℕ) →
        first_write h snap key ≡ Some n → IsFirstWrite 1 snap key h n }
{}

/// The first conflict is the number of the first entry past the snapshot that writes one of the keys.
pub fn first_conflict_is()
    ensures { (h : List Entry) (snap : ℕ) (keys : List Key) →
        first_conflict h snap keys ≡ first_writer h snap keys }
{}

/// The next entry's writes may be installed where room was made for their keys. Then the versions stand
/// for the history with it, and its text is the last.
pub fn history_goes_on()
    ensures ready { (es : Versions Key Cell) (h : List Entry) (oldest : ℕ) (e : Entry) (room : List Key) →
        StandFor es h oldest → IsTrue (is_sorted key_cmp e.writes) →
        room ≡ key_set key_cmp (keys_of e.writes) → AreReady (length h + 1) e.writes room es }
    ensures versions { (es : Versions Key Cell) (h : List Entry) (oldest : ℕ) (e : Entry) →
        StandFor es h oldest →
        StandFor (all_installed (length h + 1) e.writes es) (h ++ e ∷ []) oldest }
    ensures texts { (h : List Entry) (e : Entry) →
        program_texts (h ++ e ∷ []) ≡ program_texts h ++ text_at (length h + 1) e.act }
{}

/// Versions that are trimmed stand for the same history, from a later index on.
pub fn trimmed_stand()
    ensures { (es : Versions Key Cell) (h : List Entry) (oldest later : ℕ) →
        oldest ≤ later → StandFor es h oldest → StandFor (trimmed_all later es) h later }
{}

/// A log has too few bytes for more than 2^28 versions, also with one more entry.
pub fn versions_are_few()
    ensures { (es : Versions Key Cell) (h : List Entry) (oldest : ℕ) (e : Entry) →
        StandFor es h oldest → size h ≤ 2 ^ 30 → length (spelled e) ≤ 2 ^ 23 →
        kept_count es + length e.writes ≤ 2 ^ 28 }
{}
