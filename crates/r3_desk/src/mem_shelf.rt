//! Texts of files in memory.

ghost use Rattle.std.specs.Prelude.{◌≡◌, ◌≤◌, ◌<◌, ◌↔◌, length, IfOk, IsErrOf, map, string_bytes, OnOk};
ghost use Rattle.std.specs.Option.{ForSome, option_copied};
ghost use Rattle.r3_desk.specs.Causes.{Rose};
ghost use Rattle.r3_desk.specs.Shelves.{TextCall, fresh_shelf, first_text};

use crate::{Shelf, ShelfFault};
use std::alloc::Global;

/// Texts in memory, by their paths. A path that isn't there is a fault.
#[derive(Drop)]
pub struct MemShelf {
    texts: Vec<(String, Vec<u8>)>,
    fails: Vec<u64>,
    made: u64,
    faults: u64,
}

impl MemShelf {
    ghost use Rattle.r3_desk.specs.MemShelf.{shelf_contents};

    /// A shelf of these texts, of which the first of equal paths counts. The calls of these numbers fail, counted
    /// from 1.
    pub fn new(texts: Vec<(String, Vec<u8>)>, fails: Vec<u64>) -> Self
        ensures { shelf_contents result ≡ fresh_shelf (map (λ t. (string_bytes t.0, t.1.items)) texts.items) fails.items }
    {
        MemShelf {
            texts,
            fails,
            made: 0,
            faults: 0,
        }
    }
}

impl Shelf for MemShelf {
    ghost use Rattle.r3_desk.specs.MemShelf.{shelf_contents};

    ghost text_of = { λ s path. first_text (map (λ t. (string_bytes t.0, t.1.items)) s.texts.items) path };

    ghost faults = { λ s. s.faults };

    fn text(&mut self, alloc: Global, path: &str, limit: u64) -> Result<Vec<u8>, ShelfFault>
        ensures exact { TextCall (λ v. v.items) (shelf_contents self.old) (shelf_contents self.new) path.now limit result }
        ensures whole { IfOk result (λ v. ForSome (⟦<MemShelf as Shelf>⟧.text_of self.old path.now) (λ text. v.items ≡ text)) }
        ensures too_long { (IsErrOf result ShelfFault.Fault → ⊥) → (IsErrOf result ShelfFault.Memory → ⊥) →
            ForSome (⟦<MemShelf as Shelf>⟧.text_of self.old path.now) (λ text. (IsErrOf result ShelfFault.TooLong) ↔ (limit < length text)) }
        ensures same { ⟦<MemShelf as Shelf>⟧.text_of self.new ≡ ⟦<MemShelf as Shelf>⟧.text_of self.old }
        ensures never_falls { ⟦<MemShelf as Shelf>⟧.faults self.old ≤ ⟦<MemShelf as Shelf>⟧.faults self.new }
        ensures fault { IsErrOf result ShelfFault.Fault → Rose (⟦<MemShelf as Shelf>⟧.faults self.old) (⟦<MemShelf as Shelf>⟧.faults self.new) }
        ensures no_fault { (IsErrOf result ShelfFault.Fault → ⊥) → ⟦<MemShelf as Shelf>⟧.faults self.new ≡ ⟦<MemShelf as Shelf>⟧.faults self.old }
    {
        let number = self.made.saturating_add(1);
        self.made = number;
        if self.fails.contains(&number) {
            self.faults = self.faults.saturating_add(1);
            return Err(ShelfFault::Fault);
        }
        match find(&self.texts, path) {
            None => {
                self.faults = self.faults.saturating_add(1);
                Err(ShelfFault::Fault)
            }
            Some(text) => copy_within(alloc, text, limit),
        }
    }
}

// A copy of a text that has at most so many bytes.
fn copy_within(alloc: Global, text: &[u8], limit: u64) -> Result<Vec<u8>, ShelfFault>
    ensures whole { IfOk result (λ v. v.items ≡ text.now) }
    ensures within { OnOk result (length text.now ≤ limit) }
    ensures too_long { IsErrOf result ShelfFault.TooLong → limit < length text.now }
    ensures no_fault { IsErrOf result ShelfFault.Fault → ⊥ }
{
    if text.len() as u64 > limit {
        return Err(ShelfFault::TooLong);
    }
    match text.to_vec(alloc) {
        Ok(copy) => Ok(copy),
        Err(_) => Err(ShelfFault::Memory),
    }
}

// The text of the first of equal paths.
fn find<'a>(texts: &'a [(String, Vec<u8>)], path: &str) -> Option<&'a [u8]>
    ensures { option_copied result ≡ first_text (map (λ t. (string_bytes t.0, t.1.items)) texts.now) path.now }
{
    for (name, text) in texts {
        if name.as_str() == path {
            return Some(text.as_slice());
        }
    }
    None
}
