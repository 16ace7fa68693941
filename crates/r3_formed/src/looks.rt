//! Looks at the map as of an index.

ghost use Rattle.std.specs.Prelude.{◌≡◌, ◌↔◌, IfOk, IsTrue, IsSome, T, [], map};
ghost use Rattle.std.specs.FinMap.Entries.{is_sorted};
ghost use Rattle.std.specs.List.{AllByRecursion, filter_map};
ghost use Rattle.r3_rows.specs.Keys.{key_cmp};
ghost use Rattle.r3_rows.specs.declared.rows.Key.TheVariants.{User, Flow, Step};
ghost use Rattle.r3_chain.specs.Versions.{as_of};
ghost use Rattle.r3_formed.specs.Rules.{version_in, cell_in, range_in, look_in, named_between};
ghost use Rattle.r3_formed.specs.Answers.{name, flow_in};

use r3_chain::Chains;
use r3_rows::{Cell, Key, Read};
use r3_value::{Memory, Txt};
use sqlite_items::Items;
use std::alloc::Global;

/// The version of the key as of the index.
pub fn version_as_of(chains: &Chains<Key, Cell>, key: &Key, index: u32) -> u32
    requires { T (is_sorted key_cmp chains.now.versions) }
    ensures { result ≡ version_in (as_of index chains.now.versions) key.now }
{
    chains.version(key, index)
}

/// Whether there is a cell under the key as of the index.
pub fn is_present(chains: &Chains<Key, Cell>, key: &Key, index: u32) -> bool
    requires { T (is_sorted key_cmp chains.now.versions) }
    ensures { IsTrue result ↔ IsSome (cell_in (as_of index chains.now.versions) key.now) }
{
    match chains.read(key, index) {
        Some(_) => true,
        None => false,
    }
}

// The text by which a key is told.
pub fn name_of(key: &Key) -> Result<Txt, Memory>
    ensures { IfOk result (λ t. t ≡ name key.now) }
{
    match key {
        Key::User { table: _, key } => Ok(key.copy()?),
        Key::Flow { id } => Ok(id.copy()?),
        Key::Step { id, n: _ } => Ok(id.copy()?),
    }
}

// The keys by their names.
fn names_of(alloc: Global, keys: &[(&Key, u32)]) -> Result<Vec<(Txt, u32)>, Memory>
    ensures { IfOk result (λ names. names.items ≡ map (λ r. (name r.0.now, r.1)) keys.now) }
{
    let mut names = Vec::new(alloc);
    'keys: for seen in keys {
        names.push((name_of(seen.0)?, seen.1))?;
    }
    Ok(names)
}

fn row_of(table: &Txt, key: &Txt) -> Result<Key, Memory>
    ensures { IfOk result (λ k. k ≡ User table.now key.now) }
{
    Ok(Key::User {
        table: table.copy()?,
        key: key.copy()?,
    })
}

// The keys from `lo` and below `hi` that are present as of the index, by their names, with their
// versions.
fn range_as_of(
    alloc: Global,
    chains: &Chains<Key, Cell>,
    lo: &Key,
    hi: &Key,
    index: u32,
) -> Result<Vec<(Txt, u32)>, Memory>
    ensures { IfOk result (λ keys.
        keys.items ≡ named_between lo.now hi.now (as_of index chains.now.versions)) }
{
    let keys = chains.range(alloc, lo, hi, index)?;
    let names = names_of(alloc, &keys)?;
    Ok(names)
}

/// The keys of the table from `lo` and below `hi` that are present as of the index, in byte order,
/// with their versions.
pub fn rows_as_of(
    alloc: Global,
    chains: &Chains<Key, Cell>,
    table: &Txt,
    lo: &Txt,
    hi: &Txt,
    index: u32,
) -> Result<Vec<(Txt, u32)>, Memory>
    ensures { IfOk result (λ keys.
        keys.items ≡ range_in (as_of index chains.now.versions) table.now lo.now hi.now) }
{
    let from = row_of(table, lo)?;
    let to = row_of(table, hi)?;
    let keys = range_as_of(alloc, chains, &from, &to, index)?;
    Ok(keys)
}

// The text as a value's text.
fn txt_of(alloc: Global, text: &str) -> Result<Txt, Memory>
    ensures { IfOk result (λ t. t ≡ text.now) }
{
    match Txt::new(alloc, text) {
        Ok(text) => Ok(text),
        Err(_) => Err(Memory),
    }
}

/// The same, of texts.
pub fn texts_between(
    alloc: Global,
    chains: &Chains<Key, Cell>,
    table: &str,
    lo: &str,
    hi: &str,
    index: u32,
) -> Result<Vec<(Txt, u32)>, Memory>
    ensures { IfOk result (λ keys.
        keys.items ≡ range_in (as_of index chains.now.versions) table.now lo.now hi.now) }
{
    let table = txt_of(alloc, table)?;
    let lo = txt_of(alloc, lo)?;
    let hi = txt_of(alloc, hi)?;
    let keys = rows_as_of(alloc, chains, &table, &lo, &hi, index)?;
    Ok(keys)
}

fn first_flow(alloc: Global) -> Result<Key, Memory>
    ensures { IfOk result (λ k. k ≡ Flow []) }
{
    Ok(Key::Flow {
        id: txt_of(alloc, "")?,
    })
}

fn first_step(alloc: Global) -> Result<Key, Memory>
    ensures { IfOk result (λ k. k ≡ Step [] 0) }
{
    Ok(Key::Step {
        id: txt_of(alloc, "")?,
        n: 0,
    })
}

/// The IDs that have a flow row as of the index, in byte order.
pub fn flows_as_of(
    alloc: Global,
    chains: &Chains<Key, Cell>,
    index: u32,
) -> Result<Vec<Txt>, Memory>
    ensures { IfOk result (λ ids. ids.items ≡ filter_map flow_in (as_of index chains.now.versions)) }
{
    // All flow keys stand between these two.
    let lo = first_flow(alloc)?;
    let hi = first_step(alloc)?;
    let names = range_as_of(alloc, chains, &lo, &hi, index)?;
    let ids = ids_of(alloc, &names)?;
    Ok(ids)
}

fn ids_of(alloc: Global, names: &[(Txt, u32)]) -> Result<Vec<Txt>, Memory>
    ensures { IfOk result (λ ids. ids.items ≡ map (λ p. p.0) names.now) }
{
    let mut ids = Vec::new(alloc);
    'names: for seen in names {
        ids.push(seen.0.copy()?)?;
    }
    Ok(ids)
}

// The same look, taken anew.
fn look_again(
    alloc: Global,
    chains: &Chains<Key, Cell>,
    index: u32,
    read: &Read,
) -> Result<Read, Memory>
    requires { T (is_sorted key_cmp chains.now.versions) }
    ensures { IfOk result (λ again. again ≡ look_in (as_of index chains.now.versions) read.now) }
{
    match read {
        Read::At {
            table,
            key,
            version: _,
        } => {
            let row = row_of(table, key)?;
            Ok(Read::At {
                table: table.copy()?,
                key: key.copy()?,
                version: version_as_of(chains, &row, index),
            })
        }
        Read::Range {
            table,
            lo,
            hi,
            keys: _,
        } => Ok(Read::Range {
            table: table.copy()?,
            lo: lo.copy()?,
            hi: hi.copy()?,
            keys: Items::from_vec(rows_as_of(alloc, chains, table, lo, hi, index)?),
        }),
    }
}

/// Whether the look gives the same as of the index.
pub fn is_read_again(
    alloc: Global,
    chains: &Chains<Key, Cell>,
    index: u32,
    read: &Read,
) -> Result<bool, Memory>
    requires { T (is_sorted key_cmp chains.now.versions) }
    ensures { IfOk result (λ b. IsTrue b
        ↔ (read.now ≡ look_in (as_of index chains.now.versions) read.now)) }
{
    let again = look_again(alloc, chains, index, read)?;
    Ok(read.same(&again))
}

/// Whether each of these looks gives the same as of the index.
pub fn are_read_again(
    alloc: Global,
    chains: &Chains<Key, Cell>,
    index: u32,
    reads: &[Read],
) -> Result<bool, Memory>
    requires { T (is_sorted key_cmp chains.now.versions) }
    ensures { IfOk result (λ b. IsTrue b
        ↔ AllByRecursion (λ r. r ≡ look_in (as_of index chains.now.versions) r) reads.now) }
{
    'reads: for read in reads {
        if !is_read_again(alloc, chains, index, read)? {
            return Ok(false);
        }
    }
    Ok(true)
}
