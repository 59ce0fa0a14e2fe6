//! A ledger with signed changes that are staged over it, whose calls may be made in any order.

ghost use Rattle.std.specs.Prelude.{◌≡◌, pos, ◌+◌, ◌≤◌, ◌<◌, ◌^◌, true, length};
ghost use Rattle.ledger_book.specs.Ledger.{amount_at, names};
ghost use Rattle.ledger_book.specs.Postings.{IsFunded};
ghost use Rattle.ledger_book.specs.declared.staged.TheConstants.{MAX_POSTED};

use collection_keys::Collection;
use condition_sets::AccountId;
use ledger_book::{Ledger, MAX_ENTRIES, MAX_POSTED, PostFault, Staged};
use std::alloc::Global;
use std::marker::Model;
use std::mem;
use std::test::Fail;

/// The ledger, what is staged, and of that the sum of all sizes and the number of postings.
#[derive(Drop)]
pub struct Trial {
    ledger: Ledger,
    staged: Staged,
    size: u64,
    count: u32,
}

impl Model for Trial {
    ghost use Rattle.std.specs.Prelude.{◌≡◌, ◌≤◌, length, pos};
    ghost use Rattle.ledger_book.specs.Ledger.{LedgerView, amount_at};
    ghost use Rattle.ledger_book.specs.Postings.{AreWithin, IsFunded};

    ghost Value = { LedgerView };

    ghost view = { λ t. t.ledger };

    ghost invariant = { λ t. IsFunded (amount_at t.ledger) t.staged.postings × AreWithin t.size t.staged.postings × (length t.staged.postings ≤ t.count) × (t.staged.vault ≡ pos 0) };
}

impl Trial {
    /// An empty ledger, and nothing staged.
    pub fn new(alloc: Global) -> Result<Trial, Fail> {
        Ok(Trial {
            ledger: Ledger::new(alloc, MAX_ENTRIES)?,
            staged: Staged::new(alloc)?,
            size: 0,
            count: 0,
        })
    }

    /// What is committed so far.
    pub fn ledger(&self) -> &Ledger {
        &self.ledger
    }

    /// Stages a signed change of what an account has, and tells what is left where it would be below 0.
    pub fn post(
        &mut self,
        account: u16,
        key: &Collection,
        amount: i64,
    ) -> Result<Option<i128>, Fail> {
        let size = amount.unsigned_abs();
        if !fits(self.size, self.count, size) {
            return Err("too much is staged".into());
        }
        let staged = &mut self.staged;
        match staged.post(&self.ledger, AccountId(account), key, i128::from(amount)) {
            Ok(()) => {}
            Err(PostFault::Short { have }) => return Ok(Some(have)),
            Err(PostFault::Memory) => return Err("no memory".into()),
        }
        self.size += size;
        self.count += 1;
        Ok(None)
    }

    /// Makes room for what is staged.
    pub fn reserve(&mut self) -> Result<(), Fail> {
        Ok(self.ledger.reserve(&self.staged)?)
    }

    /// Commits what is staged, which the ledger has to admit.
    pub fn commit(&mut self, alloc: Global) -> Result<(), Fail> {
        if u64::from(self.ledger.names()) + u64::from(self.count) >= 1 << 32 {
            return Err("too many names".into());
        }
        let staged = mem::replace(&mut self.staged, Staged::new(alloc)?);
        self.size = 0;
        self.count = 0;
        carry_out(&mut self.ledger, staged)
    }
}

/// Carries changes out, which the ledger has to admit.
fn carry_out(ledger: &mut Ledger, staged: Staged) -> Result<(), Fail>
    requires funded { IsFunded (amount_at ledger.old) staged.postings }
    requires vault { staged.vault ≡ pos 0 }
    requires few { length (names ledger.old) + length staged.postings < 2 ^ 32 }
{
    // The vault is within its limit.
    let _vault = ledger.vault();
    ledger.reserve(&staged)?;
    match ledger.admits(&staged) {
        Ok(()) => {}
        Err(_) => return Err("not admitted".into()),
    }
    ledger.commit(staged);
    Ok(())
}

/// Whether a posting of this size may be staged behind others.
fn fits(size: u64, count: u32, amount: u64) -> bool
    ensures sizes { result ≡ true → size + amount ≤ MAX_POSTED }
    ensures number { result ≡ true → count < 1_000 }
{
    amount <= MAX_POSTED && size <= MAX_POSTED - amount && count < 1_000
}
