//! Reading a history: entry after entry, each against those before it.

ghost use Rattle.std.specs.Prelude.{◌≡◌, ◌↔◌, ◌+◌, ◌<◌, ◌≤◌, ◌^◌, ◌++◌, [], ◌∷◌, true, false, None, Err, IfOk, OnOk, IsTrue, List, ℕ, length, map, string_bytes, vec_len, vec_capacity};
ghost use Rattle.std.specs.Option.{IfSome};
ghost use Rattle.r3_entry.specs.declared.entry.Entry.{Entry};
ghost use Rattle.r3_entry.specs.Bytes.{entry as spelled, size};
ghost use Rattle.r3_entry.specs.Limits.{IsEntry};
ghost use Rattle.r3_entry.specs.Formed.{Follows, IsFormed};
ghost use Rattle.r3_gate.specs.Log.{Fits};
ghost use Rattle.r3_formed.specs.Past.{HasRoom, StandFor};
ghost use Rattle.r3_formed.specs.Answers.{text_at, text_of};
ghost use Rattle.r3_formed.specs.Load.{Loads, AreUnformed, bytes_of, load_fault, payloads as payloads_of};

use crate::adding::move_payload;
use crate::fault::LoadFault;
use crate::install::put_versions;
use crate::rules::{fits_behind, have_flows, is_program_first};
use r3_chain::Chains;
use r3_entry::{Act, Entry, EntryFault, decode, formed_goes_on, one_spelling};
use r3_rows::{Cell, Key};
use r3_value::Memory;
use std::alloc::Global;

// How many versions the chains may keep. A write takes at least 6 bytes of a log of at most 2^30, so
// there are never so many.
const MAX_VERSIONS: u32 = 1 << 28;

/// What was read of a log.
#[derive(Drop)]
pub struct Loaded {
    /// The versions of the whole history.
    pub chains: Chains<Key, Cell>,
    /// All entries, where they were to be kept, and else none.
    pub entries: Vec<Entry>,
    /// The number and the text of each Program entry, where entries weren't to be kept, and else none.
    pub texts: Vec<(u32, String)>,
}

// Whether the entry may follow so many entries, whose versions the chains keep. Where it may, they
// keep its versions too.
fn admit(
    alloc: Global,
    chains: &mut Chains<Key, Cell>,
    count: u32,
    entry: &Entry,
) -> Result<bool, Memory>
    requires few { count < 1000000 }
    requires stands { (h : List Entry) × (count ≡ length h) × StandFor chains.old.versions h 0 }
    requires room { HasRoom chains.old (length entry.now.writes) }
    ensures follows { (h : List Entry) → count ≡ length h → StandFor chains.old.versions h 0 →
        IfOk result (λ b. IsTrue b ↔ Follows h entry.now) }
    ensures versions { (h : List Entry) → count ≡ length h → StandFor chains.old.versions h 0 →
        IfOk result (λ b. IsTrue b → StandFor chains.new.versions (h ++ entry.now ∷ []) 0) }
    ensures cap { chains.new.cap ≡ chains.old.cap }
{
    if !is_program_first(count, entry) {
        return Ok(false);
    }
    if !fits_behind(alloc, chains, count, entry)? {
        return Ok(false);
    }
    put_versions(alloc, chains, count + 1, &entry.writes)?;
    let flows = have_flows(chains, count + 1, entry.writes.list())?;
    Ok(flows)
}

// The entry with these bytes, where it may stand there.
fn add_entry(
    alloc: Global,
    chains: &mut Chains<Key, Cell>,
    count: u32,
    payload: &[u8],
) -> Result<Entry, EntryFault>
    requires bytes { length payload.now ≤ 2 ^ 23 }
    requires few { count < 1000000 }
    requires stands { (h : List Entry) × (count ≡ length h) × StandFor chains.old.versions h 0 }
    requires room { HasRoom chains.old (2 ^ 21) }
    ensures entry { IfOk result (λ e. IsEntry e × (payload.now ≡ spelled e)) }
    ensures follows { (h : List Entry) → count ≡ length h → StandFor chains.old.versions h 0 →
        IfOk result (λ e. Follows h e × StandFor chains.new.versions (h ++ e ∷ []) 0) }
    ensures unformed { (h : List Entry) → count ≡ length h → StandFor chains.old.versions h 0 →
        result ≡ Err EntryFault.NotEntry → (e : Entry) → payload.now ≡ spelled e → IsEntry e →
        Follows h e → ⊥ }
    ensures cap { chains.new.cap ≡ chains.old.cap }
{
    let entry = match decode(alloc, payload) {
        Ok(entry) => entry,
        Err(fault) => return Err(fault),
    };
    one_spelling();
    match admit(alloc, chains, count, &entry) {
        Ok(true) => Ok(entry),
        Ok(false) => {
            let_go(entry);
            Err(EntryFault::NotEntry)
        }
        Err(_) => {
            let_go(entry);
            Err(EntryFault::Memory)
        }
    }
}

// Drops an entry, in one place for all its variants.
fn let_go(_entry: Entry) {}

// The text of a Program entry.
fn text_of_act(act: Act) -> Option<String>
    ensures none { result ≡ None → (j : ℕ) → text_at j act ≡ [] }
    ensures some { IfSome result (λ t. (j : ℕ) → text_at j act ≡ (j, string_bytes t) ∷ []) }
{
    match act {
        Act::Program { text } => Some(text.into_string()),
        _ => None,
    }
}

/// Keeps the number and the text of a Program entry behind the others, for which there is room. It takes
/// no memory, and keeps nothing of another entry.
pub fn put_text(texts: &mut Vec<(u32, String)>, number: u32, act: Act)
    requires { vec_len texts.old < vec_capacity texts.old }
    ensures { map text_of texts.new.items ≡ map text_of texts.old.items ++ text_at number act }
{
    if let Some(text) = text_of_act(act) {
        match texts.push((number, text)) {
            Ok(()) => {}
            Err(_) => unreachable!(),
        }
    }
}

fn keep_entry(entries: &mut Vec<Entry>, entry: Entry) -> Result<(), Memory>
    ensures { OnOk result (entries.new.items ≡ entries.old.items ++ entry ∷ []) }
{
    entries.push(entry)?;
    Ok(())
}

// One payload more, whose entry is kept.
fn load_kept(
    alloc: Global,
    loaded: &mut Loaded,
    count: u32,
    payload: &[u8],
) -> Result<(), EntryFault>
    requires bytes { length payload.now ≤ 2 ^ 23 }
    requires few { count < 1000000 }
    requires stands { (h : List Entry) × (count ≡ length h) × StandFor loaded.old.chains.versions h 0 }
    requires room { HasRoom loaded.old.chains (2 ^ 21) }
    ensures ok { (h : List Entry) → count ≡ length h → Loads loaded.old true h →
        size h + (5 + length payload.now) ≤ 2 ^ 30 →
        OnOk result ((e : Entry) × (payload.now ≡ spelled e)
        × Loads loaded.new true (h ++ e ∷ [])) }
    ensures unformed { (h : List Entry) → count ≡ length h → StandFor loaded.old.chains.versions h 0 →
        result ≡ Err EntryFault.NotEntry → (e : Entry) → payload.now ≡ spelled e →
        IsFormed (h ++ e ∷ []) → ⊥ }
{
    let entry = match add_entry(alloc, &mut loaded.chains, count, payload) {
        Ok(entry) => entry,
        Err(fault) => return Err(fault),
    };
    formed_goes_on();
    match keep_entry(&mut loaded.entries, entry) {
        Ok(()) => Ok(()),
        Err(_) => Err(EntryFault::Memory),
    }
}

// Keeps the number and the text of a Program entry, and nothing of another one.
fn keep_text(texts: &mut Vec<(u32, String)>, number: u32, act: Act) -> Result<(), Memory>
    ensures { OnOk result (map text_of texts.new.items
        ≡ map text_of texts.old.items ++ text_at number act) }
{
    if let Some(text) = text_of_act(act) {
        texts.push((number, text))?;
    }
    Ok(())
}

// One payload more, of which at most a program text is kept.
fn load_moved(
    alloc: Global,
    loaded: &mut Loaded,
    count: u32,
    payload: &[u8],
) -> Result<(), EntryFault>
    requires bytes { length payload.now ≤ 2 ^ 23 }
    requires few { count < 1000000 }
    requires stands { (h : List Entry) × (count ≡ length h) × StandFor loaded.old.chains.versions h 0 }
    requires room { HasRoom loaded.old.chains (2 ^ 21) }
    ensures ok { (h : List Entry) → count ≡ length h → Loads loaded.old false h →
        size h + (5 + length payload.now) ≤ 2 ^ 30 →
        OnOk result ((e : Entry) × (payload.now ≡ spelled e)
        × Loads loaded.new false (h ++ e ∷ [])) }
    ensures unformed { (h : List Entry) → count ≡ length h → StandFor loaded.old.chains.versions h 0 →
        result ≡ Err EntryFault.NotEntry → (e : Entry) → payload.now ≡ spelled e →
        IsFormed (h ++ e ∷ []) → ⊥ }
{
    let act = match move_payload(alloc, &mut loaded.chains, count, payload) {
        Ok(act) => act,
        Err(fault) => return Err(fault),
    };
    formed_goes_on();
    match keep_text(&mut loaded.texts, count + 1, act) {
        Ok(()) => Ok(()),
        Err(_) => Err(EntryFault::Memory),
    }
}

// The one or the other.
fn load_either(
    alloc: Global,
    loaded: &mut Loaded,
    keep: bool,
    count: u32,
    payload: &[u8],
) -> Result<(), EntryFault>
    requires bytes { length payload.now ≤ 2 ^ 23 }
    requires few { count < 1000000 }
    requires stands { (h : List Entry) × (count ≡ length h) × StandFor loaded.old.chains.versions h 0 }
    requires room { HasRoom loaded.old.chains (2 ^ 21) }
    ensures ok { (h : List Entry) → count ≡ length h → Loads loaded.old keep h →
        size h + (5 + length payload.now) ≤ 2 ^ 30 →
        OnOk result ((e : Entry) × (payload.now ≡ spelled e)
        × Loads loaded.new keep (h ++ e ∷ [])) }
    ensures unformed { (h : List Entry) → count ≡ length h → StandFor loaded.old.chains.versions h 0 →
        result ≡ Err EntryFault.NotEntry → (e : Entry) → payload.now ≡ spelled e →
        IsFormed (h ++ e ∷ []) → ⊥ }
{
    if keep {
        return load_kept(alloc, loaded, count, payload);
    }
    load_moved(alloc, loaded, count, payload)
}

fn fault_at(fault: EntryFault, entry: u32) -> LoadFault
    ensures { result ≡ load_fault fault entry }
{
    match fault {
        EntryFault::NotEntry => LoadFault::NotFormed { entry },
        EntryFault::Memory => LoadFault::Memory,
    }
}

// One payload more.
fn load_one(
    alloc: Global,
    loaded: &mut Loaded,
    keep: bool,
    count: u32,
    payload: &[u8],
) -> Result<(), LoadFault>
    requires bytes { length payload.now ≤ 2 ^ 23 }
    requires few { count < 1000000 }
    requires stands { (h : List Entry) × (count ≡ length h) × Loads loaded.old keep h }
    ensures ok { (h : List Entry) → count ≡ length h → Loads loaded.old keep h →
        size h + (5 + length payload.now) ≤ 2 ^ 30 →
        OnOk result ((e : Entry) × (payload.now ≡ spelled e)
        × Loads loaded.new keep (h ++ e ∷ [])) }
    ensures unformed { (h : List Entry) → count ≡ length h → Loads loaded.old keep h → (k : ℕ) →
        result ≡ Err (LoadFault.NotFormed k) →
        (k ≡ length h + 1) × ((e : Entry) → payload.now ≡ spelled e → IsFormed (h ++ e ∷ []) → ⊥) }
{
    match load_either(alloc, loaded, keep, count, payload) {
        Ok(()) => Ok(()),
        Err(fault) => return Err(fault_at(fault, count + 1)),
    }
}

/// The history with these payloads, and its versions. Each entry is checked against those before it.
/// `keep` says whether the entries are kept too, or the program texts alone.
pub fn load(alloc: Global, payloads: &[Vec<u8>], keep: bool) -> Result<Loaded, LoadFault>
    requires { Fits (bytes_of payloads.now) }
    ensures ok { IfOk result (λ l. (h : List Entry)
        × (bytes_of payloads.now ≡ payloads_of h) × Loads l keep h) }
    ensures not_formed { (k : ℕ) → result ≡ Err (LoadFault.NotFormed k) →
        AreUnformed (bytes_of payloads.now) k }
{
    let mut loaded = Loaded {
        chains: Chains::new(alloc, MAX_VERSIONS),
        entries: Vec::new(alloc),
        texts: Vec::new(alloc),
    };
    let mut count: u32 = 0;
    'payloads: for payload in payloads {
        match load_one(alloc, &mut loaded, keep, count, payload) {
            Ok(()) => {}
            Err(fault) => return Err(fault),
        }
        count += 1;
    }
    Ok(loaded)
}
