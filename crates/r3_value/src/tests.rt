use crate::{Outcome, Txt, Val, ValFault, Vals};
use std::alloc::Global;
use std::test::Fail;

fn text_of(alloc: Global, bytes: usize) -> Result<Val, Fail> {
    Ok(Val::text(alloc, "t".repeat(alloc, bytes)?.as_str())?)
}

fn list_of_one(alloc: Global, item: Val) -> Result<Result<Val, ValFault>, Fail> {
    let mut items = Vec::new(alloc);
    items.push(item)?;
    Ok(Val::list(items))
}

/// Lists inside one another around an empty list, so many in all.
fn nested(alloc: Global, depth: u32) -> Result<Result<Val, ValFault>, Fail> {
    let mut value = Val::list(Vec::new(alloc))?;
    for _ in 1..depth {
        match list_of_one(alloc, value)? {
            Ok(outer) => value = outer,
            Err(fault) => return Ok(Err(fault)),
        }
    }
    Ok(Ok(value))
}

/// null, true, -7, "é" and []
fn one_of_each(alloc: Global) -> Result<Vec<Val>, Fail> {
    let mut items = Vec::new(alloc);
    items.push(Val::Null)?;
    items.push(Val::Bool(true))?;
    items.push(Val::Int(-7))?;
    items.push(Val::text(alloc, "é")?)?;
    items.push(Val::list(Vec::new(alloc))?)?;
    Ok(items)
}

#[test]
fn a_text_has_at_most_4091_bytes(rt: HostRuntime) -> Result<(), Fail> {
    let alloc = rt.alloc();
    let longest = "t".repeat(alloc, 4091)?;
    let text = Txt::new(alloc, longest.as_str())?;
    assert_eq!(rt; text.as_str(), longest.as_str());
    assert_eq!(rt; Val::Text(text).weight(), 4096);
    let longer = "t".repeat(alloc, 4092)?;
    assert_eq!(rt;
        Txt::new(alloc, longer.as_str()),
        Err(ValFault::TooLarge(4097))
    );
    assert_eq!(rt;
        Val::text(alloc, longer.as_str()),
        Err(ValFault::TooLarge(4097))
    );
    Ok(())
}

#[test]
fn a_list_has_at_most_4096_bytes(rt: HostRuntime) -> Result<(), Fail> {
    let alloc = rt.alloc();
    // bytes of the one text in the list, weight of the list if it is too large
    let cases = [
        (0, None),
        (4086, None),
        (4087, Some(4097)),
        (4091, Some(4101)),
    ];
    for (bytes, too_large) in cases {
        let list = list_of_one(alloc, text_of(alloc, bytes)?)?;
        let got = match &list {
            Err(ValFault::TooLarge(weight)) => Some(*weight),
            _ => None,
        };
        assert_eq!(rt; got, too_large, "a text of {bytes} bytes");
        assert_eq!(rt;
            list.is_ok(),
            too_large.is_none(),
            "a text of {bytes} bytes"
        );
    }
    let mut two = Vec::new(alloc);
    two.push(text_of(alloc, 4091)?)?;
    two.push(text_of(alloc, 4091)?)?;
    assert_eq!(rt; Val::list(two), Err(ValFault::TooLarge(8197)));
    Ok(())
}

#[test]
fn lists_nest_at_most_16_deep(rt: HostRuntime) -> Result<(), Fail> {
    let alloc = rt.alloc();
    let deepest = nested(alloc, 16)??;
    assert_eq!(rt; deepest.depth(), 16);
    assert_eq!(rt; deepest.weight(), 80);
    assert_eq!(rt; deepest.copy()?, deepest);
    assert_eq!(rt; nested(alloc, 17)?, Err(ValFault::TooDeep));
    // Too large comes before too deep.
    let mut both = Vec::new(alloc);
    both.push(deepest)?;
    both.push(text_of(alloc, 4091)?)?;
    assert_eq!(rt; Val::list(both), Err(ValFault::TooLarge(4181)));
    Ok(())
}

fn values_of(list: Val) -> Option<Vals> {
    match list {
        Val::List(values) => Some(values),
        _other => None,
    }
}

#[test]
fn a_copy_is_equal(rt: HostRuntime) -> Result<(), Fail> {
    let alloc = rt.alloc();
    let list = Val::list(one_of_each(alloc)?)?;
    assert_eq!(rt; list.weight(), 29);
    assert_eq!(rt; list.depth(), 2);
    assert!(rt; list.copy()?.same(&list));
    let ended = Outcome::Value(list.copy()?);
    assert!(rt; ended.copy()?.same(&ended));
    let failed = Outcome::Failure(Txt::new(alloc, "é")?.copy()?);
    assert!(rt; failed.copy()? == failed && failed != ended);
    Ok(())
}

#[test]
fn the_values_of_a_list_are_told_and_taken_out(rt: HostRuntime) -> Result<(), Fail> {
    let alloc = rt.alloc();
    let values = values_of(Val::list(one_of_each(alloc)?)?).ok_or("a list")?;
    assert_eq!(rt; values.items().len(), 5);
    let copy = values.copy()?;
    assert!(rt; copy == values && copy.same(&values));
    assert_eq!(rt; copy.into_vec().as_slice(), one_of_each(alloc)?.as_slice());
    Ok(())
}

#[test]
fn values_that_differ_are_not_equal(rt: HostRuntime) -> Result<(), Fail> {
    let alloc = rt.alloc();
    let mut kinds = one_of_each(alloc)?;
    kinds.push(Val::Bool(false))?;
    kinds.push(Val::Int(7))?;
    kinds.push(Val::text(alloc, "e")?)?;
    kinds.push(list_of_one(alloc, Val::Null)??)?;
    kinds.push(list_of_one(alloc, Val::Bool(false))??)?;
    for (i, a) in kinds.iter().enumerate() {
        for (j, b) in kinds.iter().enumerate() {
            assert_eq!(rt; a == b, i == j, "values {i} and {j}");
        }
    }
    Ok(())
}

#[test]
fn texts_are_ordered_by_their_bytes(rt: HostRuntime) -> Result<(), Fail> {
    let alloc = rt.alloc();
    // in order; "é" begins with the byte 195
    for (less, more) in [("", "B"), ("B", "a"), ("a", "aa"), ("aa", "é")] {
        let (x, y) = (Txt::new(alloc, less)?, Txt::new(alloc, more)?);
        assert!(rt; x < y && y > x && x != y, "{less} and {more}");
    }
    Ok(())
}
