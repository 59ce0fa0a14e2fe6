ghost use Rattle.std.specs.Prelude.{◌≡◌, ◌↔◌, ℕ, pos, ◌+◌, ◌<◌, ◌≤◌, ◌^◌, nat_lt, if◌then◌else◌, ◌+ℤ◌, ◌≤ℤ◌, ◌++◌, true, length, take, slice_get, Some, None, Err, IfOk, OnOk, option_map};
ghost use Rattle.std.specs.Map.{keys_of};
ghost use Rattle.condition_sets.specs.declared.amount.TheConstants.{MAX_AMOUNT};
ghost use Rattle.collection_keys.specs.Collections.{Pairs};
ghost use Rattle.ledger_book.specs.Entries.{HasEntries, held_after};
ghost use Rattle.ledger_book.specs.Ledger.{IsEmpty, HoldSame, IsReady, amount_at, supply_at, names, supply_in, rows, kept_or_none, are_placed};
ghost use Rattle.ledger_book.specs.Naming.{new_names};
ghost use Rattle.ledger_book.specs.Postings.{credits, debits, minted, burnt, IsFunded};
ghost use Rattle.ledger_book.specs.Staging.{oversupplied, is_above_supply, comes_before};

use crate::carrying::{is_position_in, post_all, supply_all};
use crate::keeping::{kept, place_all};
use crate::moved::{burnt, credits, debits, minted};
use crate::naming::{find_new, number_all};
use crate::posting::Posting;
use crate::staged::Staged;
use collection_keys::Collection;
use condition_sets::{AccountId, MAX_AMOUNT, NoMemory};
use indexmap::IndexMap;
use std::alloc::Global;
use std::collections::BTreeMap;
use std::marker::Model;

/// The most entries that a ledger has a limit of.
pub const MAX_ENTRIES: u32 = 4_000_000;

/// What each account holds of each collection, which collections have a name, and what the vault holds.
///
/// Contracts read it by `amount_at`, `supply_at` and `names`, and see the vault.
#[derive(Drop)]
pub struct Ledger {
    // What each account holds, by the number of the collection; 0 where nothing is kept, and behind the names.
    accounts: Vec<BTreeMap<usize, u64>>,
    // What all accounts hold of each named collection, whose number is its place, and behind those what the next commit
    // names, with a supply of 0.
    supplies: IndexMap<Collection, u64>,
    // How many of these have a name.
    named: u32,
    vault: u64,
    // How many amounts are other than 0.
    entries: u32,
    // How many may be.
    limit: u32,
}

/// Why a ledger doesn't admit changes.
#[derive(Clone, Copy, Debug, PartialEq, Eq)]
pub enum LedgerFull {
    /// A supply would be above its limit; `supply` is the present one of the least such collection.
    Supply { supply: u64 },
    /// More balances would be other than 0 than the limit.
    Entries,
}

impl Model for Ledger {
    ghost use Rattle.std.specs.Prelude.{◌≤◌, take};
    ghost use Rattle.std.specs.Map.{keys_of};
    ghost use Rattle.condition_sets.specs.declared.amount.TheConstants.{MAX_AMOUNT};
    ghost use Rattle.ledger_book.specs.Entries.{HasEntries};
    ghost use Rattle.ledger_book.specs.Ledger.{LedgerView, IsSound, rows, amount_in};

    ghost Value = { LedgerView };

    ghost view = { λ l. record { rows = rows l.accounts.items; supplies = take l.named l.supplies.entries; numbered = keys_of l.supplies.entries; vault = l.vault; limit = l.limit } };

    ghost invariant = { λ l. IsSound (rows l.accounts.items) l.supplies.entries l.named × (l.vault ≤ MAX_AMOUNT) × HasEntries (amount_in (rows l.accounts.items) (keys_of (take l.named l.supplies.entries))) l.entries × (l.entries ≤ l.limit) };
}

#[tactic(auto, unfolding(crate::specs::Ledger::amount_at, crate::specs::Ledger::supply_at, crate::specs::Ledger::names))]
impl Ledger {
    /// Nobody holds anything, no collection has a name, and the vault is empty. At most so many balances may be other
    /// than 0.
    pub fn new(alloc: Global, entries: u32) -> Result<Ledger, NoMemory>
        requires { entries ≤ MAX_ENTRIES }

        ensures empty { IfOk result IsEmpty }
        ensures limit { IfOk result (λ ledger. ledger.limit ≡ entries) }
    {
        Ok(Ledger {
            accounts: Vec::new(alloc),
            supplies: IndexMap::new(alloc),
            named: 0,
            vault: 0,
            entries: 0,
            limit: entries,
        })
    }

    /// What an account holds of a collection. It takes no memory.
    pub fn balance(&self, a: AccountId, k: &Collection) -> u64
        ensures value { result ≡ amount_at self.now a k.now }
        ensures within { result ≤ MAX_AMOUNT }
    {
        let Some(number) = self.supplies.get_index_of(k) else {
            return 0;
        };
        kept(&self.accounts, a, number).unwrap_or(0)
    }

    /// What all accounts hold of a collection. It takes no memory.
    pub fn supply(&self, k: &Collection) -> u64
        ensures value { result ≡ supply_at self.now k.now }
        ensures within { result ≤ MAX_AMOUNT }
    {
        self.supplies.get(k).copied().unwrap_or(0)
    }

    /// The collateral units in the vault. It takes no memory.
    pub fn vault(&self) -> u64
        ensures value { result ≡ self.now.vault }
        ensures within { result ≤ MAX_AMOUNT }
    {
        self.vault
    }

    /// How many balances are other than 0. It takes no memory.
    pub fn entries(&self) -> u32
        ensures counted { HasEntries (amount_at self.now) result }
        ensures within { result ≤ self.now.limit }
    {
        self.entries
    }

    /// How many collections have a name. It takes no memory.
    pub fn names(&self) -> u32
        ensures { result ≡ length (names self.now) }
    {
        self.named
    }

    /// The collection with a name's number. It takes no memory.
    pub fn name(&self, i: u32) -> Collection
        requires { i < length (names self.now) }
        ensures { slice_get (names self.now) i ≡ Some result }
    {
        let Some((collection, _)) = self.supplies.get_index(i as usize) else {
            unreachable!()
        };
        *collection
    }

    /// Whether the ledger may take the changes: `Supply` exactly where a supply would be above [`MAX_AMOUNT`], with the
    /// present one of the least such collection, and else `Entries` exactly where more balances would be other than 0
    /// than the limit. It takes no memory.
    pub fn admits(&self, s: &Staged) -> Result<(), LedgerFull>
        ensures ok { OnOk result (oversupplied (supply_at self.now) s.now.postings ≡ None) }
        ensures within { OnOk result ((n : ℕ) → HasEntries (held_after (amount_at self.now) s.now.postings) n → n ≤ self.now.limit) }
        ensures supply { (supply : ℕ) → (result ≡ Err (LedgerFull.Supply supply)) ↔ (oversupplied (supply_at self.now) s.now.postings ≡ Some supply) }
        ensures entries { result ≡ Err LedgerFull.Entries → (oversupplied (supply_at self.now) s.now.postings ≡ None) × ((n : ℕ) → HasEntries (held_after (amount_at self.now) s.now.postings) n → self.now.limit < n) }
    {
        let postings = s.postings();
        if let Some(supply) = self.oversupply(postings) {
            return Err(LedgerFull::Supply { supply });
        }
        if u64::from(self.limit) < self.entries_after(postings) {
            return Err(LedgerFull::Entries);
        }
        Ok(())
    }

    /// Makes room for the changes and finds what they name, so that they can be committed. What is held is as it was,
    /// and no collection gets a name.
    pub fn reserve(&mut self, s: &Staged) -> Result<(), NoMemory>
        ensures same { HoldSame self.old self.new }
        ensures ok { OnOk result (IsReady self.new s.now.postings) }
    {
        make_room(
            &mut self.supplies,
            &mut self.accounts,
            self.named as usize,
            s.postings(),
        )
    }

    /// Carries the changes out. It takes no memory.
    pub fn commit(&mut self, s: Staged)
        requires ready { IsReady self.old s.postings }
        requires funded { IsFunded (amount_at self.old) s.postings }
        requires admitted { oversupplied (supply_at self.old) s.postings ≡ None }
        requires entries { (n : ℕ) → HasEntries (held_after (amount_at self.old) s.postings) n → n ≤ self.old.limit }
        requires vault_low { pos 0 ≤ℤ (pos self.old.vault +ℤ s.vault) }
        requires vault_high { (pos self.old.vault +ℤ s.vault) ≤ℤ pos MAX_AMOUNT }
        requires few { length (names self.old) + length s.postings < 2 ^ 32 }

        ensures balances { (a : ℕ) (k : Pairs) → amount_at self.new a k + debits s.postings a k ≡ amount_at self.old a k + credits s.postings a k }
        ensures supplies { (k : Pairs) → supply_at self.new k + burnt s.postings k ≡ supply_at self.old k + minted s.postings k }
        ensures vault { pos self.new.vault ≡ pos self.old.vault +ℤ s.vault }
        ensures names { names self.new ≡ names self.old ++ new_names (names self.old) s.postings }
        ensures limit { self.new.limit ≡ self.old.limit }
    {
        let (postings, change) = s.into_parts();
        self.entries = self.entries_after(&postings) as u32;
        self.vault = changed(self.vault, change);
        supply_all(&mut self.supplies, &postings);
        post_all(&mut self.accounts, &self.supplies, &postings);
        self.named = self.supplies.len() as u32;
    }

    // The present supply of the least collection whose supply would be above its limit.
    fn oversupply(&self, postings: &[Posting]) -> Option<u64>
        ensures { result ≡ oversupplied (supply_at self.now) postings.now }
    {
        let mut least: Option<Collection> = None;
        for posting in postings {
            if self.would_be_above(postings, &posting.collection)
                && comes_before(&posting.collection, &least)
            {
                least = Some(posting.collection);
            }
        }
        Some(self.supply(&least?))
    }

    // Whether the supply of a collection would be above its limit.
    fn would_be_above(&self, postings: &[Posting], collection: &Collection) -> bool
        ensures { result ≡ is_above_supply (supply_at self.now) postings.now collection.now }
    {
        let present = self.supply(collection);
        let paid = minted(postings, collection);
        let taken = burnt(postings, collection);
        taken < paid && u128::from(MAX_AMOUNT - present) < paid - taken
    }

    // How many balances would be other than 0.
    fn entries_after(&self, postings: &[Posting]) -> u64
        ensures { HasEntries (held_after (amount_at self.now) postings.now) result }
    {
        let mut entries = u64::from(self.entries);
        for (place, posting) in postings.iter().enumerate() {
            if !is_position_in(&postings[..place], posting) {
                entries = self.counted(entries, postings, posting);
            }
        }
        entries
    }

    // How many entries there are when the position of one of the postings is changed too.
    fn counted(&self, entries: u64, postings: &[Posting], posting: &Posting) -> u64
        requires some { 0 < amount_at self.now posting.now.account posting.now.collection → 0 < entries }
        requires few { entries + 1 < 2 ^ 64 }

        ensures { result + (if nat_lt 0 (amount_at self.now posting.now.account posting.now.collection) then 1 else 0) ≡ entries + (if nat_lt 0 (held_after (amount_at self.now) postings.now posting.now.account posting.now.collection) then 1 else 0) }
    {
        let held = self.balance(posting.account, &posting.collection);
        let paid = credits(postings, posting.account, &posting.collection);
        let taken = debits(postings, posting.account, &posting.collection);
        let stays = taken < paid || taken - paid < u128::from(held);
        match (held > 0, stays) {
            (true, false) => entries - 1,
            (false, true) => entries + 1,
            _ => entries,
        }
    }
}

// Gives numbers to the collections that the postings name, in place of those that were numbered before, and makes a
// place for each posting. Nothing else changes.
fn make_room(
    supplies: &mut IndexMap<Collection, u64>,
    accounts: &mut Vec<BTreeMap<usize, u64>>,
    named: usize,
    postings: &[Posting],
) -> Result<(), NoMemory>
    requires { named ≤ length supplies.old.entries }

    ensures front { take named supplies.new.entries ≡ take named supplies.old.entries }
    ensures within { named ≤ length supplies.new.entries }
    ensures idle { (k : Pairs) → supply_in supplies.new.entries k ≡ supply_in (take named supplies.old.entries) k }
    ensures same { (a n : ℕ) → kept_or_none (rows accounts.new.items) a n ≡ kept_or_none (rows accounts.old.items) a n }
    ensures longer { length accounts.old.items ≤ length accounts.new.items }
    ensures numbered { OnOk result (let old = keys_of (take named supplies.old.entries) in keys_of supplies.new.entries ≡ old ++ new_names old postings.now) }
    ensures placed { OnOk result (are_placed (rows accounts.new.items) (keys_of supplies.new.entries) postings.now ≡ true) }
{
    supplies.truncate(named);
    let coming = find_new(*accounts.allocator(), supplies, postings)?;
    number_all(supplies, &coming)?;
    place_all(accounts, supplies, postings)
}

// Whether a collection comes before the one that was found.
fn comes_before(collection: &Collection, found: &Option<Collection>) -> bool
    ensures { result ≡ comes_before collection.now found.now }
{
    match found {
        Some(other) => collection.cmp(other).is_lt(),
        None => true,
    }
}

// What the vault holds after a change.
fn changed(vault: u64, change: i128) -> u64
    requires low { pos 0 ≤ℤ (pos vault +ℤ change) }
    requires high { (pos vault +ℤ change) ≤ℤ pos MAX_AMOUNT }

    ensures value { pos result ≡ pos vault +ℤ change }
    ensures within { result ≤ MAX_AMOUNT }
{
    (i128::from(vault) + change) as u64
}
