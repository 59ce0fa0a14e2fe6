//! Collections that are joined, parted and put in order.

use collection_keys::{Collection, KeyFault};
use condition_sets::{ConditionId, IndexSet, MAX_SLOTS, SlotCount};
use std::test::Fail;

/// A condition and a set of its slots.
fn pair(number: u16, bits: u32) -> Result<(ConditionId, IndexSet), Fail> {
    let slots = SlotCount::new(MAX_SLOTS).ok_or("no number of slots")?;
    let condition = ConditionId::new(number).ok_or("no condition")?;
    Ok((
        condition,
        IndexSet::proper(bits, slots).ok_or("no proper set")?,
    ))
}

/// The collection of these pairs, joined in this order.
fn joined(pairs: &[(u16, u32)]) -> Result<Result<Collection, KeyFault>, Fail> {
    let mut key = Collection::root();
    for (number, bits) in pairs {
        let (condition, set) = pair(*number, *bits)?;
        key = match key.with(condition, set) {
            Ok(longer) => longer,
            Err(fault) => return Ok(Err(fault)),
        };
    }
    Ok(Ok(key))
}

/// The collection of pairs that can be joined.
pub fn collection(pairs: &[(u16, u32)]) -> Result<Collection, Fail> {
    match joined(pairs)? {
        Ok(key) => Ok(key),
        Err(_) => Err("not joined".into()),
    }
}

#[test]
fn pairs_are_joined(rt: HostRuntime) -> Result<(), Fail> {
    let four = joined(&[(7, 3), (0, 1), (9, 2), (3, 1)])?;
    assert!(rt; joined(&[(3, 1), (9, 2), (7, 3), (0, 1)])? == four);
    assert!(rt; joined(&[(7, 3), (0, 1), (9, 2), (3, 2)])? != four);
    assert!(rt; joined(&[(7, 3), (0, 1), (9, 2), (3, 1), (3, 2)])? == Err(KeyFault::Held));
    assert!(rt; joined(&[(7, 3), (0, 1), (9, 2), (3, 1), (4, 1)])? == Err(KeyFault::TooDeep));
    Ok(())
}

#[test]
fn a_pair_is_taken_out(rt: HostRuntime) -> Result<(), Fail> {
    let (third, set) = pair(3, 1)?;
    let Ok(three) = joined(&[(7, 3), (3, 1), (0, 1)])? else {
        return Err("not joined".into());
    };
    assert!(rt; three.part(third) == Some(set));
    let two = three.without(third);
    assert!(rt; two.len() == 2);
    assert!(rt; two.part(third) == None);
    assert!(rt; Ok(two) == joined(&[(7, 3), (0, 1)])?);
    Ok(())
}

#[test]
fn a_prefix_is_less(rt: HostRuntime) -> Result<(), Fail> {
    let ascending = [
        [].as_slice(),
        [(0, 1)].as_slice(),
        [(0, 1), (5, 1)].as_slice(),
        [(0, 1), (5, 1), (6, 1)].as_slice(),
        [(0, 1), (5, 2)].as_slice(),
        [(0, 2)].as_slice(),
        [(1, 1)].as_slice(),
    ];
    for (less, more) in ascending.iter().zip(ascending.iter().skip(1)) {
        let (Ok(less), Ok(more)) = (joined(less)?, joined(more)?) else {
            return Err("not joined".into());
        };
        assert!(rt; less < more, "{less:?} {more:?}");
    }
    Ok(())
}
