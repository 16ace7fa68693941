//! The running workflows.

ghost use Rattle.std.specs.Prelude.{◌≡◌, ◌≤◌, [], length, IsTrue, IfOk, OnOk, OnErr, ◌↔◌};
ghost use Rattle.std.specs.declared.option.Option.TheVariants.{Some};
ghost use Rattle.std.specs.Option.{option_copied};
ghost use Rattle.sys_queue.specs.Rows.{Rows, is_pending};
ghost use Rattle.sys_pending.specs.Running.{running_ids};
ghost use Rattle.sys_pending.specs.Index.{IsIndexOf, Follows};
ghost use Rattle.sys_pending.specs.Moves.{place_at, Enters, Leaves};

use r3_rows::{FlowRow, Status};
use r3_value::{Memory, Txt};
use std::alloc::Global;
use std::collections::BTreeSet;
use std::marker::Model;

/// The running workflows, by the entries that started them, and of one entry by their IDs.
#[derive(Drop)]
pub struct Pending {
    places: BTreeSet<(u32, Txt)>,
}

impl Model for Pending {
    ghost use Rattle.std.specs.Prelude.{List};
    ghost use Rattle.sys_queue.specs.Lines.{Place};

    ghost Value = { List Place };

    ghost view = { λ p. p.places.keys };
}

impl Pending {
    /// No workflow runs yet.
    pub fn new(alloc: Global) -> Pending
        ensures empty { result ≡ [] }
        ensures rows { IsIndexOf result [] }
    {
        Pending {
            places: BTreeSet::new(alloc),
        }
    }

    /// Notes a workflow's new row. `old` is the row last noted for the ID, None where none was.
    pub fn note(
        &mut self,
        alloc: Global,
        id: &str,
        old: Option<&FlowRow>,
        new: &FlowRow,
    ) -> Result<(), Memory>
        requires { length id.now ≤ 200 }
        ensures ok { OnOk result (Follows self.old self.new id.now (option_copied old.entry) new.now) }
        ensures err { OnErr result (self.new ≡ self.old) }
    {
        let gone = place_before(alloc, id, old)?;
        let came = place_of(alloc, id, new)?;
        if same_place(&gone, &came) {
            return Ok(());
        }
        // It enters its new place before it leaves the old one, which can't fail.
        enter(&mut self.places, came)?;
        leave(&mut self.places, gone);
        Ok(())
    }

    /// The IDs of the running workflows, the first started first; of one entry the lowest ID first.
    pub fn ids(&self, alloc: Global) -> Result<Vec<Txt>, Memory>
        ensures { IfOk result (λ ids. (rows : Rows) → IsIndexOf self.now rows → ids.items ≡ running_ids rows) }
    {
        let mut ids = Vec::new(alloc);
        for place in &self.places {
            let id = place.1.copy()?;
            ids.push(id)?;
        }
        Ok(ids)
    }

    /// How many workflows run.
    pub fn len(&self) -> usize
        ensures len { result ≡ length self.now }
        ensures rows { (rows : Rows) → IsIndexOf self.now rows → result ≡ length (running_ids rows) }
    {
        self.places.len()
    }
}

// Where a workflow with that row stands, if it runs.
fn place_of(alloc: Global, id: &str, row: &FlowRow) -> Result<Option<(u32, Txt)>, Memory>
    requires { length id.now ≤ 200 }
    ensures { IfOk result (λ place. place ≡ place_at id.now (Some row.now)) }
{
    if !matches!(row.status, Status::Pending) {
        return Ok(None);
    }
    match Txt::new(alloc, id) {
        Ok(id) => Ok(Some((row.started, id))),
        Err(_) => Err(Memory),
    }
}

// Where it stood before, if it was there.
fn place_before(
    alloc: Global,
    id: &str,
    old: Option<&FlowRow>,
) -> Result<Option<(u32, Txt)>, Memory>
    requires { length id.now ≤ 200 }
    ensures { IfOk result (λ place. place ≡ place_at id.now (option_copied old.entry)) }
{
    match old {
        None => Ok(None),
        Some(row) => place_of(alloc, id, row),
    }
}

fn same_place(a: &Option<(u32, Txt)>, b: &Option<(u32, Txt)>) -> bool
    ensures { IsTrue result ↔ (a.now ≡ b.now) }
{
    match a {
        None => matches!(b, None),
        Some(p) => match b {
            None => false,
            Some(q) => p.0 == q.0 && p.1.as_str() == q.1.as_str(),
        },
    }
}

fn enter(places: &mut BTreeSet<(u32, Txt)>, came: Option<(u32, Txt)>) -> Result<(), Memory>
    ensures ok { OnOk result (Enters came places.old.keys places.new.keys) }
    ensures err { OnErr result (places.new.keys ≡ places.old.keys) }
{
    if let Some(place) = came {
        places.insert(place)?;
    }
    Ok(())
}

fn leave(places: &mut BTreeSet<(u32, Txt)>, gone: Option<(u32, Txt)>)
    ensures { Leaves gone places.old.keys places.new.keys }
{
    if let Some(place) = gone {
        places.remove(&place);
    }
}
