//! Keys and bounds.

ghost use Rattle.std.specs.Prelude.{◌≡◌, ◌≤◌, IfOk, length};
ghost use Rattle.fn_tree.specs.Looks.{fits_bound, fits_key};
ghost use Rattle.fn_tree.specs.Values as values;
ghost use Rattle.fn_txn.specs.Texts.{IsTextOrWord, text_or_word};

use fn_walk::{Break, word};
use r3_value::{Txt, Val};
use std::alloc::Global;

/// A key of a row: a text of 1 to 256 bytes.
pub fn key_of(alloc: Global, v: Val) -> Result<Txt, Break>
    ensures { IsTextOrWord result (text_or_word fits_key (values.text_of v)) }
{
    match v {
        Val::Text(t) => {
            if is_key(t.as_str()) {
                Ok(t)
            } else {
                Err(Break::Failed(word(alloc, "size")?))
            }
        }
        _ => Err(Break::Failed(word(alloc, "type")?)),
    }
}

/// A bound of a scan: a text of at most 256 bytes.
pub fn bound_of(alloc: Global, v: Val) -> Result<Txt, Break>
    ensures runs { IsTextOrWord result (text_or_word fits_bound (values.text_of v)) }
    ensures short { IfOk result (λ t. length t ≤ 256) }
{
    match v {
        Val::Text(t) => {
            if t.as_str().len() <= 256 {
                Ok(t)
            } else {
                Err(Break::Failed(word(alloc, "size")?))
            }
        }
        _ => Err(Break::Failed(word(alloc, "type")?)),
    }
}

#[tactic(auto, using(crate::proofs::JournalLemmas::fits_key_none, crate::proofs::JournalLemmas::fits_key_long, crate::proofs::JournalLemmas::fits_key_some))]
fn is_key(text: &str) -> bool
    ensures { result ≡ fits_key text.now }
{
    if text.len() == 0 || text.len() > 256 {
        return false;
    }
    true
}
