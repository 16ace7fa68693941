//! The ordered map from a key to its newest version, and the keys that have room.

ghost use Rattle.std.specs.Prelude.{◌≡◌, ℕ, List, IsSome, IfOk, OnOk, OnErr};
ghost use Rattle.std.specs.FinMap.{find};
ghost use Rattle.std.specs.FinMap.Entries.{put};
ghost use Rattle.r3_chain.specs.Heads.{newest_in, roomed, all_roomed, written};

use r3_pool::Slot;
use std::alloc::AllocError;
use std::collections::{BTreeMap, BTreeSet};

/// Where a key's chain begins, and the last rounds in which the key was given room: the latest, and
/// the one before it that counted then.
#[derive(Clone, Copy)]
pub struct Head {
    pub newest: Option<Slot>,
    pub round: u64,
    pub before: u64,
}

/// The slot of the key's newest version.
pub fn newest<K: Ord>(heads: &BTreeMap<K, Head>, key: &K) -> Option<Slot>
    ensures { result ≡ newest_in (find K.cmp key.now heads.now.entries) }
{
    match heads.get(key) {
        Some(head) => head.newest,
        None => None,
    }
}

/// Makes the slot the key's newest version, and uses up its room. It tells the slot of the version before.
pub fn replace_newest<K: Ord>(heads: &mut BTreeMap<K, Head>, key: &K, slot: Slot) -> Option<Slot>
    requires { IsSome (find K.cmp key.now heads.old.entries) }
    ensures older { result ≡ newest_in (find K.cmp key.now heads.old.entries) }
    ensures heads { heads.new.entries ≡ put K.cmp key.now (written slot) heads.old.entries }
{
    let head = Head {
        newest: Some(slot),
        round: 0,
        before: 0,
    };
    match heads.get_mut(key) {
        Some(old) => {
            let older = old.newest;
            *old = head;
            older
        }
        None => unreachable!(),
    }
}

fn newest_of(head: Option<Head>) -> Option<Slot>
    ensures { result ≡ newest_in head }
{
    match head {
        Some(head) => head.newest,
        None => None,
    }
}

/// The same, of a key that may be new.
pub fn push_newest<K: Ord + Drop>(
    heads: &mut BTreeMap<K, Head>,
    key: K,
    slot: Slot,
) -> Result<Option<Slot>, AllocError>
    ensures older { IfOk result (λ s. s ≡ newest_in (find K.cmp key heads.old.entries)) }
    ensures heads { OnOk result (heads.new.entries ≡ put K.cmp key (written slot) heads.old.entries) }
    ensures err { OnErr result (heads.new.entries ≡ heads.old.entries) }
{
    let head = Head {
        newest: Some(slot),
        round: 0,
        before: 0,
    };
    let Ok(old) = heads.insert(key, head) else {
        return Err(AllocError);
    };
    Ok(newest_of(old))
}

/// Gives a key room in the round `next`, and keeps what it has in `round`.
fn give_room<K: Ord + Drop>(
    heads: &mut BTreeMap<K, Head>,
    key: K,
    round: u64,
    next: u64,
) -> Result<(), AllocError>
    ensures ok { OnOk result (heads.new.entries ≡ put K.cmp key (roomed round next (find K.cmp key heads.old.entries)) heads.old.entries) }
    ensures err { OnErr result (heads.new.entries ≡ heads.old.entries) }
{
    if let Some(head) = heads.get_mut(&key) {
        if head.round == round {
            head.before = round;
        }
        head.round = next;
        return Ok(());
    }
    let head = Head {
        newest: None,
        round: next,
        before: 0,
    };
    match heads.insert(key, head) {
        Ok(_) => Ok(()),
        Err(_) => Err(AllocError),
    }
}

/// Gives all the keys room in the round `next`. Where memory ends, some of them have it.
pub fn give_rooms<K: Ord + Drop>(
    heads: &mut BTreeMap<K, Head>,
    keys: BTreeSet<K>,
    round: u64,
    next: u64,
) -> Result<(), AllocError>
    ensures ok { OnOk result (heads.new.entries ≡ all_roomed K.cmp round next keys.keys heads.old.entries) }
    ensures some { (ks : List K) × (heads.new.entries ≡ all_roomed K.cmp round next ks heads.old.entries) }
{
    'keys: for key in keys {
        give_room(heads, key, round, next)?;
    }
    Ok(())
}
