//! The chains beside a plain list of installs, which gives the same answers slowly.

ghost use Rattle.std.specs.Prelude.{◌≡◌};

use crate::Chains;
use r3_pool::PoolFault;
use std::alloc::Global;
use std::marker::Model;
use std::process::Abort;
use std::test::Fail;

#[derive(Clone, Copy)]
struct Install {
    key: u8,
    index: u32,
    value: Option<u32>,
}

// The same calls on both.
#[derive(Drop)]
struct Both {
    chains: Chains<u8, u32>,
    // the last install last
    plain: Vec<Install>,
    // above the index of each install
    next: u32,
}

impl Model for Both {
    ghost use Rattle.std.specs.Prelude.{ℕ};
    ghost use Rattle.std.specs.Ordering.{nat_cmp};
    ghost use Rattle.r3_chain.specs.Versions.{IsNext};

    ghost Value = { ℕ };

    ghost view = { λ b. b.next };

    ghost invariant = { λ b. (key : ℕ) → IsNext nat_cmp b.next key b.chains.versions };
}

impl Both {
    fn new(alloc: Global, cap: u32) -> Both {
        Both {
            chains: Chains::new(alloc, cap),
            plain: Vec::new(alloc),
            next: 1,
        }
    }

    fn write(
        &mut self,
        alloc: Global,
        index: u32,
        key: u8,
        value: Option<u32>,
    ) -> Result<(), Fail> {
        if index < self.next || index == u32::MAX {
            return Ok(());
        }
        self.chains.reserve(alloc, vec![in alloc; key]?)?;
        self.plain.push(Install { key, index, value })?;
        self.chains.install(index, &key, value);
        self.next = index + 1;
        Ok(())
    }

    // Without room made before. It tells the version before.
    fn add(&mut self, index: u32, key: u8, value: Option<u32>) -> Result<u32, PoolFault> {
        if index < self.next || index == u32::MAX {
            return Ok(0);
        }
        let before = self.chains.add(index, key, value)?;
        self.next = index + 1;
        match self.plain.push(Install { key, index, value }) {
            Ok(()) => Ok(before),
            Err(_) => Err(PoolFault::Memory),
        }
    }

    fn trim(&mut self, oldest: u32) {
        self.chains.trim(oldest);
    }
}

// The last install of the key up to the index.
fn last_of(plain: &[Install], key: u8, index: u32) -> (u32, Option<u32>) {
    let mut last = (0, None);
    for install in plain {
        if install.key == key && install.index <= index {
            last = (install.index, install.value);
        }
    }
    last
}

fn first_of(plain: &[Install], key: u8, snap: u32) -> Option<u32> {
    for install in plain {
        if install.key == key && install.index > snap {
            return Some(install.index);
        }
    }
    None
}

fn compare_key(rt: &impl Abort, both: &Both, key: u8, index: u32) {
    let (version, value) = last_of(&both.plain, key, index);
    assert!(rt; both.chains.version(&key, index) == version);
    match both.chains.read(&key, index) {
        Some((read, at)) => assert!(rt; value == Some(*read) && at == version),
        None => assert!(rt; value.is_none()),
    }
    assert!(rt; both.chains.after(&key, index) == first_of(&both.plain, key, index));
}

fn compare_range(
    rt: &impl Abort,
    alloc: Global,
    both: &Both,
    lo: u8,
    hi: u8,
    index: u32,
) -> Result<(), Fail> {
    let keys = both.chains.range(alloc, &lo, &hi, index)?;
    let mut found = 0;
    for key in lo..hi {
        let (version, value) = last_of(&both.plain, key, index);
        if value.is_some() {
            assert!(rt; found < keys.len());
            assert!(rt; *keys[found].0 == key && keys[found].1 == version);
            found += 1;
        }
    }
    assert!(rt; keys.len() == found);
    Ok(())
}

fn compare(rt: &impl Abort, alloc: Global, both: &Both, from: u32) -> Result<(), Fail> {
    for index in from..10 {
        for key in 0..5 {
            compare_key(rt, both, key, index);
        }
        compare_range(rt, alloc, both, 0, 5, index)?;
        compare_range(rt, alloc, both, 1, 3, index)?;
    }
    Ok(())
}

// The same writes on both, each by `add` or by `reserve` and `install`, and then trims.
fn play(rt: &impl Abort, alloc: Global, adds: bool) -> Result<(), Fail> {
    let mut both = Both::new(alloc, 16);
    // index, key, value or none for a deletion
    let writes = [
        (1, 3, Some(30)),
        (2, 1, Some(10)),
        (3, 3, None),
        (4, 0, Some(5)),
        (5, 1, Some(11)),
        (6, 3, Some(31)),
        (7, 2, Some(20)),
        (8, 1, None),
    ];
    for (index, key, value) in writes {
        if adds {
            let (before, _) = last_of(&both.plain, key, index);
            assert_eq!(rt; both.add(index, key, value)?, before);
        } else {
            both.write(alloc, index, key, value)?;
        }
        compare(rt, alloc, &both, 0)?;
    }
    assert_eq!(rt; both.plain.len(), 8);
    for oldest in 0..10 {
        both.trim(oldest);
        compare(rt, alloc, &both, oldest)?;
    }
    Ok(())
}

#[test]
fn the_plain_list_gives_the_same_answers(rt: HostRuntime) -> Result<(), Fail> {
    play(&rt, rt.alloc(), false)
}

#[test]
fn added_without_room_made_before_the_answers_are_the_same(rt: HostRuntime) -> Result<(), Fail> {
    play(&rt, rt.alloc(), true)
}

// Key 7 has three of the four versions that there may be.
#[test]
fn a_version_added_tells_the_one_before(rt: HostRuntime) -> Result<(), Fail> {
    let mut both = Both::new(rt.alloc(), 4);
    // index, key, value or none for a deletion, the version before or 0
    let writes = [
        (3, 7, Some(30), 0),
        (5, 8, Some(50), 0),
        (6, 7, None, 3),
        (9, 7, Some(90), 6),
    ];
    for (index, key, value, before) in writes {
        assert_eq!(rt; both.add(index, key, value)?, before, "version {index}");
    }
    assert!(rt; matches!(both.add(10, 8, None), Err(PoolFault::Full)));
    assert_eq!(rt; both.chains.version(&8, 10), 5);
    both.trim(6);
    assert_eq!(rt; both.add(10, 8, None)?, 5);
    Ok(())
}

// There may be four versions, so each of the later ones takes a slot that a trim gave back.
#[test]
fn trims_between_overwrites_discard_what_no_later_index_reads(rt: HostRuntime) -> Result<(), Fail> {
    let alloc = rt.alloc();
    let mut both = Both::new(alloc, 4);
    // the index trimmed at, then index, key, value or none for a deletion, whether a slot is free
    let steps = [
        (0, 1, 1, Some(10), true),
        (0, 2, 2, Some(20), true),
        (2, 3, 1, Some(11), true),
        (2, 4, 1, Some(12), true),
        (2, 5, 2, None, false),
        (3, 5, 2, None, true),
        (3, 6, 1, Some(13), false),
        (5, 6, 1, Some(13), true),
        (5, 7, 1, Some(14), true),
        (5, 8, 3, Some(30), false),
        (6, 8, 3, Some(30), true),
        (7, 9, 2, Some(21), true),
    ];
    for (oldest, index, key, value, free) in steps {
        both.trim(oldest);
        assert_eq!(rt;
            both.add(index, key, value).is_ok(),
            free,
            "version {index}"
        );
        compare(&rt, alloc, &both, oldest)?;
    }
    assert_eq!(rt; both.plain.len(), 9);
    Ok(())
}

#[test]
fn a_deletion_is_a_version(rt: HostRuntime) -> Result<(), Fail> {
    let mut both = Both::new(rt.alloc(), 8);
    both.write(rt.alloc(), 2, 7, Some(5))?;
    both.write(rt.alloc(), 4, 7, None)?;
    assert!(rt;
        both.chains
            .read(&7, 3)
            .is_some_and(|read| *read.0 == 5 && read.1 == 2)
    );
    assert!(rt; both.chains.read(&7, 4).is_none());
    assert_eq!(rt; both.chains.version(&7, 4), 4);
    both.trim(4);
    assert!(rt; both.chains.read(&7, 4).is_none());
    assert_eq!(rt; both.chains.version(&7, 4), 4);
    Ok(())
}

// Two versions are kept, so there is room for one more, however often its key is named.
#[test]
fn different_keys_count_once_against_the_cap(rt: HostRuntime) -> Result<(), Fail> {
    let alloc = rt.alloc();
    let mut chains: Chains<u8, u32> = Chains::new(alloc, 2);
    chains.reserve(alloc, vec![in alloc; 7, 8, 7]?)?;
    assert!(rt;
        matches!(
            chains.reserve(alloc, vec![in alloc; 7, 8, 9]?),
            Err(PoolFault::Full)
        )
    );
    assert_eq!(rt; chains.range(alloc, &3, &1, 1)?.len(), 0);
    Ok(())
}
