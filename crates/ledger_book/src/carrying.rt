//! The carrying out of postings: each position, and each supply, is changed once, by the net of all postings, since what
//! one posting alone would leave may be below 0 or above every limit.

ghost use Rattle.std.specs.Prelude.{◌≡◌, ◌==◌, ℕ, ◌+◌, ◌<◌, ◌≤◌, true, false, length};
ghost use Rattle.std.specs.List.{list_any};
ghost use Rattle.std.specs.Map.{keys_of};
ghost use Rattle.std.specs.Option.{is_some};
ghost use Rattle.condition_sets.specs.declared.amount.TheConstants.{MAX_AMOUNT};
ghost use Rattle.collection_keys.specs.Collections.{Pairs};
ghost use Rattle.collection_keys.specs.Comparing.{same_collection};
ghost use Rattle.ledger_book.specs.Ledger.{same_position, amount_in, supply_in, rows, kept, is_placed, are_placed};
ghost use Rattle.ledger_book.specs.Naming.{has};
ghost use Rattle.ledger_book.specs.Postings.{credits, debits, minted, burnt};

use crate::keeping::{keep, kept};
use crate::moved::{burnt, credits, debits, minted};
use crate::posting::Posting;
use collection_keys::Collection;
use condition_sets::{AccountId, MAX_AMOUNT};
use indexmap::IndexMap;
use std::collections::BTreeMap;

// Carries the postings out on what the accounts hold.
pub(crate) fn post_all(
    accounts: &mut [BTreeMap<usize, u64>],
    supplies: &IndexMap<Collection, u64>,
    postings: &[Posting],
)
    requires low { (a : ℕ) (k : Pairs) → debits postings.now a k ≤ amount_in (rows accounts.old) (keys_of supplies.now.entries) a k + credits postings.now a k }
    requires high { (a : ℕ) (k : Pairs) → amount_in (rows accounts.old) (keys_of supplies.now.entries) a k + credits postings.now a k ≤ MAX_AMOUNT + debits postings.now a k }
    requires unnamed { (a : ℕ) (k : Pairs) → has (keys_of supplies.now.entries) k ≡ false → credits postings.now a k ≡ debits postings.now a k }
    requires placed { are_placed (rows accounts.old) (keys_of supplies.now.entries) postings.now ≡ true }

    ensures amounts { (a : ℕ) (k : Pairs) → amount_in (rows accounts.new) (keys_of supplies.now.entries) a k + debits postings.now a k ≡ amount_in (rows accounts.old) (keys_of supplies.now.entries) a k + credits postings.now a k }
    ensures behind { (a n : ℕ) → length supplies.now.entries ≤ n → kept (rows accounts.new) a n ≡ kept (rows accounts.old) a n }
{
    for (place, posting) in postings.iter().enumerate() {
        if !is_position_in(&postings[..place], posting) {
            post(accounts, supplies, postings, posting);
        }
    }
}

// Carries out what all postings together change at the position of one of them.
fn post(
    accounts: &mut [BTreeMap<usize, u64>],
    supplies: &IndexMap<Collection, u64>,
    postings: &[Posting],
    posting: &Posting,
)
    requires low { debits postings.now posting.now.account posting.now.collection ≤ amount_in (rows accounts.old) (keys_of supplies.now.entries) posting.now.account posting.now.collection + credits postings.now posting.now.account posting.now.collection }
    requires high { amount_in (rows accounts.old) (keys_of supplies.now.entries) posting.now.account posting.now.collection + credits postings.now posting.now.account posting.now.collection ≤ MAX_AMOUNT + debits postings.now posting.now.account posting.now.collection }
    requires unnamed { has (keys_of supplies.now.entries) posting.now.collection ≡ false → credits postings.now posting.now.account posting.now.collection ≡ debits postings.now posting.now.account posting.now.collection }
    requires placed { is_placed (rows accounts.old) (keys_of supplies.now.entries) posting.now ≡ true }

    ensures here { amount_in (rows accounts.new) (keys_of supplies.now.entries) posting.now.account posting.now.collection + debits postings.now posting.now.account posting.now.collection ≡ amount_in (rows accounts.old) (keys_of supplies.now.entries) posting.now.account posting.now.collection + credits postings.now posting.now.account posting.now.collection }
    ensures other { (a : ℕ) (k : Pairs) → same_position (posting.now.account, posting.now.collection) (a, k) ≡ false → amount_in (rows accounts.new) (keys_of supplies.now.entries) a k ≡ amount_in (rows accounts.old) (keys_of supplies.now.entries) a k }
    ensures behind { (a n : ℕ) → length supplies.now.entries ≤ n → kept (rows accounts.new) a n ≡ kept (rows accounts.old) a n }
    ensures stays { (a n : ℕ) → is_some (kept (rows accounts.old) a n) ≡ true → is_some (kept (rows accounts.new) a n) ≡ true }
{
    let Some(number) = supplies.get_index_of(&posting.collection) else {
        return;
    };
    let Some(amount) = kept(accounts, posting.account, number) else {
        unreachable!()
    };
    let paid = credits(postings, posting.account, &posting.collection);
    let taken = debits(postings, posting.account, &posting.collection);
    let Ok(()) = keep(
        accounts,
        posting.account,
        number,
        moved(amount, paid, taken),
    ) else {
        unreachable!()
    };
}

// Carries the postings out on what all accounts hold together.
pub(crate) fn supply_all(supplies: &mut IndexMap<Collection, u64>, postings: &[Posting])
    requires low { (k : Pairs) → burnt postings.now k ≤ supply_in supplies.old.entries k + minted postings.now k }
    requires high { (k : Pairs) → supply_in supplies.old.entries k + minted postings.now k ≤ MAX_AMOUNT + burnt postings.now k }
    requires unnamed { (k : Pairs) → has (keys_of supplies.old.entries) k ≡ false → minted postings.now k ≡ burnt postings.now k }

    ensures supplies { (k : Pairs) → supply_in supplies.new.entries k + burnt postings.now k ≡ supply_in supplies.old.entries k + minted postings.now k }
    ensures names { keys_of supplies.new.entries ≡ keys_of supplies.old.entries }
{
    for (place, posting) in postings.iter().enumerate() {
        if !is_collection_in(&postings[..place], posting) {
            supply(supplies, postings, &posting.collection);
        }
    }
}

// Carries out what all postings together change of the supply of a collection; of one without a name they change nothing.
fn supply(supplies: &mut IndexMap<Collection, u64>, postings: &[Posting], collection: &Collection)
    requires low { burnt postings.now collection.now ≤ supply_in supplies.old.entries collection.now + minted postings.now collection.now }
    requires high { supply_in supplies.old.entries collection.now + minted postings.now collection.now ≤ MAX_AMOUNT + burnt postings.now collection.now }
    requires unnamed { has (keys_of supplies.old.entries) collection.now ≡ false → minted postings.now collection.now ≡ burnt postings.now collection.now }

    ensures here { supply_in supplies.new.entries collection.now + burnt postings.now collection.now ≡ supply_in supplies.old.entries collection.now + minted postings.now collection.now }
    ensures other { (k : Pairs) → same_collection collection.now k ≡ false → supply_in supplies.new.entries k ≡ supply_in supplies.old.entries k }
    ensures names { keys_of supplies.new.entries ≡ keys_of supplies.old.entries }
{
    let paid = minted(postings, collection);
    let taken = burnt(postings, collection);
    let Some(amount) = supplies.get(collection).copied() else {
        return;
    };
    let Ok(_) = supplies.insert(*collection, moved(amount, paid, taken)) else {
        unreachable!()
    };
}

// What is there after something is paid and something is taken.
fn moved(amount: u64, paid: u128, taken: u128) -> u64
    requires low { taken ≤ amount + paid }
    requires high { amount + paid ≤ MAX_AMOUNT + taken }

    ensures { result + taken ≡ amount + paid }
{
    if taken <= paid {
        amount + (paid - taken) as u64
    } else {
        amount - (taken - paid) as u64
    }
}

// Whether one of these is at the position of a posting.
pub(crate) fn is_position_in(front: &[Posting], posting: &Posting) -> bool
    ensures { result ≡ list_any (λ p. same_position (posting.now.account, posting.now.collection) (p.account, p.collection)) front.now }
{
    front.iter().any(|other| {
        posting.account == other.account && posting.collection == other.collection
    })
}

// Whether one of these has the collection of a posting.
fn is_collection_in(front: &[Posting], posting: &Posting) -> bool
    ensures { result ≡ list_any (λ p. same_collection posting.now.collection p.collection) front.now }
{
    front
        .iter()
        .any(|other| posting.collection == other.collection)
}
