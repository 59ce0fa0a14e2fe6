ghost use Rattle.std.specs.Prelude.{◌≡◌, ◌==◌, ◌↔◌, ◌+◌, ◌<◌, ◌^◌, nat_lt, length, slice_get, position, None, Some, Err, IsSome, IfOk};
ghost use Rattle.std.specs.List.{prefix_len};
ghost use Rattle.collection_keys.specs.Collections.{root, part, joined, without, IsCollection};

use crate::shifting::{put_at, take_out};
use condition_sets::{ConditionId, IndexSet, MAX_SLOTS, SlotCount};
use std::marker::Model;

/// The most conditions that a collection has.
pub const MAX_PAIRS: usize = 4;

/// Why a condition can't be joined to a collection.
#[derive(Clone, Copy, Debug, PartialEq, Eq)]
pub enum KeyFault {
    /// The collection has the condition.
    Held,
    /// The collection has [`MAX_PAIRS`] conditions, and not this one.
    TooDeep,
}

/// Conditions with an index set each. The empty collection is the root, whose position is cash. Contracts see the list
/// of pairs of a condition and a set, in ascending order of the conditions.
/// (Gnosis Conditional Tokens, developer documentation: collections.)
#[derive(Clone, Copy, Debug)]
pub struct Collection {
    // The places past the last pair are (0, 0).
    pairs: [(u16, u32); MAX_PAIRS],
    len: usize,
}

impl Model for Collection {
    ghost use Rattle.std.specs.Prelude.{length, take};
    ghost use Rattle.std.proofs.Common.{sym};
    ghost use Rattle.collection_keys.specs.Collections.{Pairs};
    ghost use Rattle.collection_keys.specs.Stored.{filled, IsStored, stored_length};

    ghost Value = { Pairs };

    ghost view = { λ c. take c.len c.pairs };

    ghost invariant = { λ c. IsStored c.pairs c.len };

    ghost inverse = { λ k. record { pairs = filled k; len = length k } };

    ghost inverse_ok = { λ c stored i. record { pairs = sym stored.rest i; len = stored_length c.pairs c.len stored i } };
}

impl Collection {
    /// The empty collection.
    pub fn root() -> Collection
        ensures { result ≡ root }
    {
        Collection {
            pairs: [(0, 0); MAX_PAIRS],
            len: 0,
        }
    }

    /// The collection with a condition joined: `Held` exactly where it has the condition, and `TooDeep` exactly where it
    /// has [`MAX_PAIRS`] others.
    pub fn with(&self, c: ConditionId, set: IndexSet) -> Result<Collection, KeyFault>
        ensures ok { IfOk result (λ k. k ≡ joined self.now c set) }
        ensures held { (result ≡ Err KeyFault.Held) ↔ IsSome (part self.now c) }
        ensures too_deep { (result ≡ Err KeyFault.TooDeep) ↔ ((part self.now c ≡ None) × (length self.now ≡ MAX_PAIRS)) }
    {
        if self.part(c).is_some() {
            return Err(KeyFault::Held);
        }
        if self.len == MAX_PAIRS {
            return Err(KeyFault::TooDeep);
        }
        let mut pairs = self.pairs;
        put_at(&mut pairs, self.count_below(c), (c.get(), set.bits()));
        Ok(Collection {
            pairs,
            len: self.len + 1,
        })
    }

    /// The same without a condition.
    pub fn without(&self, c: ConditionId) -> Collection
        ensures { result ≡ without self.now c }
    {
        let Some(place) = self.place_of(c) else {
            return *self;
        };
        let mut pairs = self.pairs;
        take_out(&mut pairs, place);
        Collection {
            pairs,
            len: self.len - 1,
        }
    }

    /// The index set of a condition, where the collection has it.
    pub fn part(&self, c: ConditionId) -> Option<IndexSet>
        ensures { result ≡ part self.now c }
    {
        let place = self.place_of(c)?;
        Some(self.pair(place).1)
    }

    /// How many conditions it has.
    pub fn len(&self) -> usize
        ensures value { result ≡ length self.now }
        ensures sound { IsCollection self.now }
    {
        self.len
    }

    /// The condition at a place, in ascending order, with its index set.
    pub fn pair(&self, i: usize) -> (ConditionId, IndexSet)
        requires { i < length self.now }
        ensures { slice_get self.now i ≡ Some result }
    {
        let (number, bits) = self.as_slice()[i];
        let Some(condition) = ConditionId::new(number) else {
            unreachable!()
        };
        (condition, set_of(bits))
    }

    // The pairs, in ascending order of the conditions.
    pub(crate) fn as_slice(&self) -> &[(u16, u32)]
        ensures pairs { result.now ≡ self.now }
        ensures sound { IsCollection self.now }
    {
        &self.pairs[..self.len]
    }

    // The place of a condition, where the collection has it.
    fn place_of(&self, c: ConditionId) -> Option<usize>
        ensures { result ≡ position (λ p. p.0 == c) self.now }
    {
        let number = c.get();
        self.as_slice().iter().position(|pair| pair.0 == number)
    }

    // How many conditions stand before this one's place.
    fn count_below(&self, c: ConditionId) -> usize
        ensures { result ≡ prefix_len (λ p. nat_lt p.0 c) self.now }
    {
        let number = c.get();
        self.as_slice()
            .iter()
            .take_while(|pair| pair.0 < number)
            .count()
    }
}

// The index set of these bits.
fn set_of(bits: u32) -> IndexSet
    requires some { 0 < bits }
    requires not_all { bits + 1 < 2 ^ 32 }
    ensures { result ≡ bits }
{
    let Some(slots) = SlotCount::new(MAX_SLOTS) else {
        unreachable!()
    };
    let Some(set) = IndexSet::proper(bits, slots) else {
        unreachable!()
    };
    set
}
