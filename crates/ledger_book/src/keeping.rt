//! The amounts that are kept: for each account a map from the number of a collection to an amount. Numbers behind the
//! named ones have amounts of 0, so that a place can be made for an amount before its collection has a name.

ghost use Rattle.std.specs.Prelude.{◌≡◌, ◌==◌, ℕ, ◌<◌, ◌≤◌, ◌&&◌, true, false, length, Some, None, OnOk, OnErr};
ghost use Rattle.std.specs.Map.{keys_of};
ghost use Rattle.std.specs.Option.{is_some};
ghost use Rattle.ledger_book.specs.Ledger.{rows, kept, kept_or_none, are_placed};

use crate::posting::Posting;
use collection_keys::Collection;
use condition_sets::{AccountId, NoMemory};
use indexmap::IndexMap;
use std::collections::BTreeMap;

// The amount that is kept for an account under a number, where there is one.
pub(crate) fn kept(
    accounts: &[BTreeMap<usize, u64>],
    account: AccountId,
    number: usize,
) -> Option<u64>
    ensures { result ≡ kept (rows accounts.now) account number }
{
    let amounts = accounts.get(usize::from(account.0))?;
    amounts.get(&number).copied()
}

// Keeps an amount for an account under a number. It fails only where none is kept there yet.
pub(crate) fn keep(
    accounts: &mut [BTreeMap<usize, u64>],
    account: AccountId,
    number: usize,
    amount: u64,
) -> Result<(), NoMemory>
    requires { account < length accounts.old }

    ensures here { OnOk result (kept (rows accounts.new) account number ≡ Some amount) }
    ensures other { (a n : ℕ) → ((a == account) && (n == number)) ≡ false → kept (rows accounts.new) a n ≡ kept (rows accounts.old) a n }
    ensures err { OnErr result ((a n : ℕ) → kept (rows accounts.new) a n ≡ kept (rows accounts.old) a n) }
    ensures absent { OnErr result (kept (rows accounts.old) account number ≡ None) }
{
    let amounts = &mut accounts[usize::from(account.0)];
    match amounts.insert(number, amount) {
        Ok(_) => Ok(()),
        Err(_) => Err(NoMemory),
    }
}

// Makes a place for each posting whose collection has a number: an amount of 0 where none is kept.
pub(crate) fn place_all(
    accounts: &mut Vec<BTreeMap<usize, u64>>,
    supplies: &IndexMap<Collection, u64>,
    postings: &[Posting],
) -> Result<(), NoMemory>
    ensures same { (a n : ℕ) → kept_or_none (rows accounts.new.items) a n ≡ kept_or_none (rows accounts.old.items) a n }
    ensures longer { length accounts.old.items ≤ length accounts.new.items }
    ensures ok { OnOk result (are_placed (rows accounts.new.items) (keys_of supplies.now.entries) postings.now ≡ true) }
{
    for posting in postings {
        if let Some(number) = supplies.get_index_of(&posting.collection) {
            place(accounts, posting.account, number)?;
        }
    }
    Ok(())
}

// Makes a place for an account under a number.
fn place(
    accounts: &mut Vec<BTreeMap<usize, u64>>,
    account: AccountId,
    number: usize,
) -> Result<(), NoMemory>
    ensures same { (a n : ℕ) → kept_or_none (rows accounts.new.items) a n ≡ kept_or_none (rows accounts.old.items) a n }
    ensures longer { length accounts.old.items ≤ length accounts.new.items }
    ensures stays { (a n : ℕ) → is_some (kept (rows accounts.old.items) a n) ≡ true → is_some (kept (rows accounts.new.items) a n) ≡ true }
    ensures ok { OnOk result (is_some (kept (rows accounts.new.items) account number) ≡ true) }
{
    grow(accounts, account)?;
    place_in(accounts, account, number)
}

// Makes a place under a number for an account that has its map.
fn place_in(
    accounts: &mut [BTreeMap<usize, u64>],
    account: AccountId,
    number: usize,
) -> Result<(), NoMemory>
    requires { account < length accounts.old }

    ensures same { (a n : ℕ) → kept_or_none (rows accounts.new) a n ≡ kept_or_none (rows accounts.old) a n }
    ensures stays { (a n : ℕ) → is_some (kept (rows accounts.old) a n) ≡ true → is_some (kept (rows accounts.new) a n) ≡ true }
    ensures ok { OnOk result (is_some (kept (rows accounts.new) account number) ≡ true) }
{
    if kept(accounts, account, number).is_some() {
        return Ok(());
    }
    keep(accounts, account, number, 0)
}

// Makes the list so long that an account has its map.
fn grow(accounts: &mut Vec<BTreeMap<usize, u64>>, account: AccountId) -> Result<(), NoMemory>
    ensures same { (a n : ℕ) → kept (rows accounts.new.items) a n ≡ kept (rows accounts.old.items) a n }
    ensures longer { length accounts.old.items ≤ length accounts.new.items }
    ensures ok { OnOk result (account < length accounts.new.items) }
{
    while accounts.len() <= usize::from(account.0) {
        let amounts = BTreeMap::new(*accounts.allocator());
        accounts.push(amounts)?;
    }
    Ok(())
}
