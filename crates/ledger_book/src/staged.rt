ghost use Rattle.std.specs.Prelude.{◌≡◌, ℕ, ℤ, pos, ◌+◌, ◌-◌, ◌*◌, ◌≤◌, ◌+ℤ◌, ◌-ℤ◌, ◌≤ℤ◌, neg_ℤ, nat_abs, [], ◌∷◌, ◌++◌, IfOk, OnOk, OnErr};
ghost use Rattle.condition_sets.specs.declared.amount.TheConstants.{MAX_AMOUNT};
ghost use Rattle.collection_keys.specs.Collections.{Pairs};
ghost use Rattle.ledger_book.specs.declared.staged.TheConstants.{MAX_POSTED};
ghost use Rattle.ledger_book.specs.Entries.{held_after};
ghost use Rattle.ledger_book.specs.Ledger.{amount_at};
ghost use Rattle.ledger_book.specs.Postings.{credit, debit, credits, debits, IsNetWithin, AreWithin, IsFunded};
ghost use Rattle.ledger_book.specs.Staging.{left_at, signed_posting, DebitedBy, PostedBy};

use crate::ledger::Ledger;
use crate::moved::{credits, debits};
use crate::posting::Posting;
use collection_keys::Collection;
use condition_sets::{AccountId, MAX_AMOUNT, NoMemory};
use std::alloc::Global;
use std::marker::Model;

/// The most that a posting, or the net amount of a position, is away from 0.
pub const MAX_POSTED: u64 = 100_000_000_000_000_000;

/// Changes of a ledger that are planned and not yet carried out. Dropping them changes nothing.
///
/// Contracts see the postings in their order and the change of the vault. There is no condition on the sum of all that
/// is posted.
#[derive(Drop)]
pub struct Staged {
    postings: Vec<Posting>,
    vault: i128,
}

/// Why a signed change isn't staged.
#[derive(Clone, Copy, Debug, PartialEq, Eq)]
pub enum PostFault {
    /// The account has `have` of the collection, with what is staged so far, and would fall below 0.
    Short { have: i128 },
    /// Memory was wanting.
    Memory,
}

/// Why a debit isn't staged.
#[derive(Clone, Copy, Debug, PartialEq, Eq)]
pub enum DebitFault {
    /// The account has `have` of the collection, with what is staged so far, and that is less than the debit.
    Short { have: u64 },
    /// Memory was wanting.
    Memory,
}

impl Model for Staged {
    ghost use Rattle.std.specs.Prelude.{◌≤ℤ◌, pos, neg_ℤ};
    ghost use Rattle.condition_sets.specs.declared.amount.TheConstants.{MAX_AMOUNT};
    ghost use Rattle.ledger_book.specs.Staging.{StagedView};

    ghost Value = { StagedView };

    ghost view = { λ s. record { postings = s.postings.items; vault = s.vault } };

    ghost invariant = { λ s. (neg_ℤ (pos MAX_AMOUNT) ≤ℤ s.vault) × (s.vault ≤ℤ pos MAX_AMOUNT) };
}

impl Staged {
    /// No change.
    pub fn new(alloc: Global) -> Result<Staged, NoMemory>
        ensures { IfOk result (λ staged. staged ≡ record { postings = []; vault = pos 0 }) }
    {
        Ok(Staged {
            postings: Vec::new(alloc),
            vault: 0,
        })
    }

    /// Stages a signed change of an account's position: `Short` exactly where it would fall below 0, with what is
    /// staged so far, and nothing changes then.
    pub fn post(
        &mut self,
        ledger: &Ledger,
        a: AccountId,
        k: &Collection,
        amount: i128,
    ) -> Result<(), PostFault>
        requires amount { nat_abs amount ≤ MAX_POSTED }
        requires net { IsNetWithin MAX_POSTED (self.old.postings ++ signed_posting a k.now amount ∷ []) a k.now }

        ensures ok { OnOk result (self.new ≡ record self.old { postings = self.old.postings ++ signed_posting a k.now amount ∷ [] }) }
        ensures err { OnErr result (self.new ≡ self.old) }
        ensures short { PostedBy (left_at (amount_at ledger.now) self.old.postings a k.now) amount result }
        ensures funded { OnOk result (IsFunded (amount_at ledger.now) self.old.postings → IsFunded (amount_at ledger.now) self.new.postings) }
        ensures within { (most : ℕ) → OnOk result (AreWithin most self.old.postings → AreWithin (most + nat_abs amount) self.new.postings) }
    {
        let have = self.left(ledger, a, k);
        if have + amount < 0 {
            return Err(PostFault::Short { have });
        }
        match self.push(signed(a, *k, amount)) {
            Ok(()) => Ok(()),
            Err(NoMemory) => Err(PostFault::Memory),
        }
    }

    /// Stages a payment to an account's position. It is never short.
    pub fn credit(&mut self, a: AccountId, k: &Collection, amount: u64) -> Result<(), NoMemory>
        requires amount { amount ≤ MAX_POSTED }
        requires net { IsNetWithin MAX_POSTED (self.old.postings ++ credit a k.now amount ∷ []) a k.now }

        ensures ok { OnOk result (self.new ≡ record self.old { postings = self.old.postings ++ credit a k.now amount ∷ [] }) }
        ensures err { OnErr result (self.new ≡ self.old) }
        ensures funded { (held : ℕ → Pairs → ℕ) → OnOk result (IsFunded held self.old.postings → IsFunded held self.new.postings) }
        ensures within { (most : ℕ) → OnOk result (AreWithin most self.old.postings → AreWithin (most + amount) self.new.postings) }
    {
        self.push(Posting {
            account: a,
            collection: *k,
            paid: amount,
            taken: 0,
        })
    }

    /// Stages a payment out of an account's position that isn't below 0: `Short` exactly where less is there than the
    /// amount, with what is staged so far, and nothing changes then.
    pub fn debit(
        &mut self,
        ledger: &Ledger,
        a: AccountId,
        k: &Collection,
        amount: u64,
    ) -> Result<(), DebitFault>
        requires amount { amount ≤ MAX_POSTED }
        requires net { IsNetWithin MAX_POSTED (self.old.postings ++ debit a k.now amount ∷ []) a k.now }
        requires held { debits self.old.postings a k.now ≤ amount_at ledger.now a k.now + credits self.old.postings a k.now }

        ensures ok { OnOk result (self.new ≡ record self.old { postings = self.old.postings ++ debit a k.now amount ∷ [] }) }
        ensures err { OnErr result (self.new ≡ self.old) }
        ensures short { DebitedBy (amount_at ledger.now a k.now + credits self.old.postings a k.now - debits self.old.postings a k.now) amount result }
        ensures funded { OnOk result (IsFunded (amount_at ledger.now) self.old.postings → IsFunded (amount_at ledger.now) self.new.postings) }
        ensures within { (most : ℕ) → OnOk result (AreWithin most self.old.postings → AreWithin (most + amount) self.new.postings) }
    {
        let have = self.left(ledger, a, k) as u64;
        if have < amount {
            return Err(DebitFault::Short { have });
        }
        match self.push(Posting {
            account: a,
            collection: *k,
            paid: 0,
            taken: amount,
        }) {
            Ok(()) => Ok(()),
            Err(NoMemory) => Err(DebitFault::Memory),
        }
    }

    /// What an account has at a position that isn't below 0, with what is staged so far. It takes no memory.
    pub fn have(&self, ledger: &Ledger, a: AccountId, k: &Collection) -> u64
        requires net { IsNetWithin MAX_POSTED self.now.postings a k.now }
        requires held { debits self.now.postings a k.now ≤ amount_at ledger.now a k.now + credits self.now.postings a k.now }

        ensures value { result ≡ held_after (amount_at ledger.now) self.now.postings a k.now }
        ensures within { result ≤ MAX_AMOUNT + credits self.now.postings a k.now }
    {
        let _most = ledger.balance(a, k);
        self.left(ledger, a, k) as u64
    }

    /// Stages a change of the vault. It takes no memory.
    pub fn change_vault(&mut self, amount: i128)
        requires amount_low { neg_ℤ (pos MAX_AMOUNT) ≤ℤ amount }
        requires amount_high { amount ≤ℤ pos MAX_AMOUNT }
        requires low { neg_ℤ (pos MAX_AMOUNT) ≤ℤ (self.old.vault +ℤ amount) }
        requires high { (self.old.vault +ℤ amount) ≤ℤ pos MAX_AMOUNT }

        ensures { self.new ≡ record self.old { vault = self.old.vault +ℤ amount } }
    {
        self.vault += amount;
    }

    // The postings, in their order.
    pub(crate) fn postings(&self) -> &[Posting]
        ensures { result.now ≡ self.now.postings }
    {
        self.postings.as_slice()
    }

    // The postings and the change of the vault.
    pub(crate) fn into_parts(self) -> (Vec<Posting>, i128)
        ensures postings { result.0.items ≡ self.postings }
        ensures vault { result.1 ≡ self.vault }
    {
        (self.postings, self.vault)
    }

    // What is left of a position with what is staged so far, which may be below 0.
    fn left(&self, ledger: &Ledger, a: AccountId, k: &Collection) -> i128
        requires high { credits self.now.postings a k.now ≤ debits self.now.postings a k.now + 2 * MAX_POSTED }
        requires low { debits self.now.postings a k.now ≤ credits self.now.postings a k.now + 2 * MAX_POSTED }

        ensures value { result ≡ left_at (amount_at ledger.now) self.now.postings a k.now }
        ensures high { result ≤ℤ pos (3 * MAX_POSTED) }
        ensures low { neg_ℤ (pos (3 * MAX_POSTED)) ≤ℤ result }
    {
        let held = i128::from(ledger.balance(a, k));
        let paid = credits(&self.postings, a, k);
        let taken = debits(&self.postings, a, k);
        if taken <= paid {
            held + (paid - taken) as i128
        } else {
            held - (taken - paid) as i128
        }
    }

    // One posting more.
    fn push(&mut self, posting: Posting) -> Result<(), NoMemory>
        ensures ok { OnOk result (self.new ≡ record self.old { postings = self.old.postings ++ posting ∷ [] }) }
        ensures err { OnErr result (self.new ≡ self.old) }
    {
        self.postings.push(posting)?;
        Ok(())
    }
}

// The posting of a signed change.
fn signed(account: AccountId, collection: Collection, amount: i128) -> Posting
    requires { nat_abs amount ≤ MAX_POSTED }
    ensures value { result ≡ signed_posting account collection amount }
    ensures position { (result.account ≡ account) × (result.collection ≡ collection) }
    ensures moved { pos result.paid -ℤ pos result.taken ≡ amount }
{
    let size = amount.unsigned_abs() as u64;
    if amount < 0 {
        Posting {
            account,
            collection,
            paid: 0,
            taken: size,
        }
    } else {
        Posting {
            account,
            collection,
            paid: size,
            taken: 0,
        }
    }
}
