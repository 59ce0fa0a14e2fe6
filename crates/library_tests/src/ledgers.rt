//! Changes that are staged with a sign, which no request does, and room that is made more than once.

use crate::collections::collection;
use crate::trial::Trial;
use ledger_book::Ledger;
use std::alloc::Global;
use std::test::Fail;

/// The first of some rows, a change of what an account has of YES, whose answer isn't the one that stands there: what is
/// left where it is short, and -1 where it isn't.
fn first_wrong(trial: &mut Trial, rows: &[(u16, i64, i128)]) -> Result<usize, Fail> {
    let yes = collection(&[(0, 1)])?;
    for (place, (account, amount, expected)) in rows.iter().enumerate() {
        let short = trial.post(*account, &yes, *amount)?;
        if short.unwrap_or(-1) != *expected {
            return Ok(place);
        }
    }
    Ok(rows.len())
}

#[test]
fn short_with_what_is_left(rt: HostRuntime) -> Result<(), Fail> {
    let mut trial = Trial::new(rt.alloc())?;
    assert_eq!(rt; first_wrong(&mut trial, &[(2, 7, -1)])?, 1);
    trial.commit(rt.alloc())?;
    let rows = [
        (2, -8, 7),
        (3, -1, 0),
        (2, -5, -1),
        (2, -3, 2),
        (2, 4, -1),
        (2, -7, 6),
        (2, -6, -1),
        (2, -1, 0),
        (3, 9, -1),
        (3, -9, -1),
        (3, -1, 0),
    ];
    assert_eq!(rt; first_wrong(&mut trial, &rows)?, 11);
    Ok(())
}

/// How many balances and names a ledger has, and the supplies of YES and of NO.
fn told(alloc: Global, ledger: &Ledger) -> Result<String, Fail> {
    let yes = ledger.supply(&collection(&[(0, 1)])?);
    let no = ledger.supply(&collection(&[(0, 2)])?);
    let (balances, names) = (ledger.entries(), ledger.names());
    Ok(format!(in alloc; "{balances} {names} {yes} {no}")?)
}

/// A ledger over which changes are staged, for which room was made more than once.
fn reserved_often(alloc: Global) -> Result<Trial, Fail> {
    let mut trial = Trial::new(alloc)?;
    trial.post(2, &collection(&[(0, 2)])?, 7)?;
    trial.reserve()?;
    trial.post(2, &collection(&[(0, 1)])?, 8)?;
    trial.reserve()?;
    trial.reserve()?;
    Ok(trial)
}

#[test]
fn room_is_made_more_than_once(rt: HostRuntime) -> Result<(), Fail> {
    let mut trial = reserved_often(rt.alloc())?;
    let before = told(rt.alloc(), trial.ledger())?;
    assert_eq!(rt; before.as_str(), "0 0 0 0");
    trial.commit(rt.alloc())?;
    let after = told(rt.alloc(), trial.ledger())?;
    assert_eq!(rt; after.as_str(), "2 2 8 7");
    Ok(())
}
