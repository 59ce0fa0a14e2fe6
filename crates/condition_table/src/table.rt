ghost use Rattle.std.specs.Prelude.{◌≡◌, ◌+◌, ◌<◌, ◌≤◌, [], ◌∷◌, ◌++◌, length, slice_get, slice_set, Some, None, IfOk, IfSome, MatchOption, OnOk, OnErr};
ghost use Rattle.condition_sets.specs.declared.names.TheConstants.{MAX_CONDITION};
ghost use Rattle.condition_table.specs.Conditions.{ConditionsView, place_of, numerators_at, IsReport, AreReports};

use crate::facts::Facts;
use condition_sets::{AccountId, Bits, ConditionId, NoMemory, SlotCount};
use std::alloc::Global;
use std::marker::Model;

/// The conditions that were prepared, numbered from 0 in the order of their preparation, and what was reported on them.
///
/// Contracts see the list of their facts, the list of their numerators, how many conditions there may be, and how many
/// more find room without memory.
#[derive(Drop)]
pub struct Conditions {
    facts: Vec<Facts>,
    // As many as there are facts.
    numerators: Vec<Option<Bits>>,
    limit: u16,
}

impl Model for Conditions {
    ghost use Rattle.std.specs.Prelude.{◌≡◌, ◌-◌, ◌≤◌, min, vec_len, vec_capacity};
    ghost use Rattle.condition_sets.specs.declared.names.TheConstants.{MAX_CONDITION};
    ghost use Rattle.condition_table.specs.Conditions.{ConditionsView, AreReports};

    ghost Value = { ConditionsView };

    ghost view = { λ c. record { facts = c.facts.items; numerators = c.numerators.items; limit = c.limit; room = min (vec_capacity c.facts - vec_len c.facts) (vec_capacity c.numerators - vec_len c.numerators) } };

    ghost use Rattle.std.specs.Prelude.{◌+◌};

    ghost invariant = { λ c. (vec_len c.facts ≤ c.limit) × (c.limit ≤ MAX_CONDITION + 1) × (vec_len c.numerators ≡ vec_len c.facts) × AreReports c.facts.items c.numerators.items };
}

impl Conditions {
    /// No condition is prepared, and at most `limit` will be.
    pub fn new(alloc: Global, limit: u16) -> Result<Conditions, NoMemory>
        requires { limit ≤ MAX_CONDITION + 1 }
        ensures facts { IfOk result (λ conditions. conditions.facts ≡ []) }
        ensures numerators { IfOk result (λ conditions. conditions.numerators ≡ []) }
        ensures limit { IfOk result (λ conditions. conditions.limit ≡ limit) }
    {
        Ok(Conditions {
            facts: Vec::new(alloc),
            numerators: Vec::new(alloc),
            limit,
        })
    }

    /// The condition of these facts; `None` exactly where it isn't prepared. It takes no memory.
    pub fn find(&self, oracle: AccountId, question: u64, slots: SlotCount) -> Option<ConditionId>
        ensures { result ≡ place_of (record { oracle = oracle; question = question; slots = slots }) self.now.facts }
    {
        let facts = Facts {
            oracle,
            question,
            slots,
        };
        match place_of(&self.facts, facts) {
            Some(place) => ConditionId::new(place as u16),
            None => None,
        }
    }

    /// The facts of a condition; `None` exactly where it isn't prepared. It takes no memory.
    pub fn get(&self, condition: ConditionId) -> Option<Facts>
        ensures { result ≡ slice_get self.now.facts condition }
    {
        self.facts.get(usize::from(condition.get())).copied()
    }

    /// The same of a number, which may be none of a condition.
    pub fn at(&self, number: u16) -> Option<Facts>
        ensures value { result ≡ slice_get self.now.facts number }
        ensures within { IfSome result (λ _. number ≤ MAX_CONDITION) }
    {
        self.facts.get(usize::from(number)).copied()
    }

    /// The numerators that were reported on a condition, one for each slot; `None` exactly where it isn't prepared or not
    /// reported. It takes no memory.
    pub fn numerators(&self, condition: ConditionId) -> Option<&[u32]>
        ensures value { MatchOption result (numerators_at self.now.numerators condition ≡ None) (λ ns. numerators_at self.now.numerators condition ≡ Some ns.now) }
        ensures reports { AreReports self.now.facts self.now.numerators }
    {
        match self.numerators.get(usize::from(condition.get())) {
            Some(reported) => slice_of(reported),
            None => None,
        }
    }

    /// How many conditions are prepared. It takes no memory.
    pub fn len(&self) -> u16
        ensures value { result ≡ length self.now.facts }
        ensures within { result ≤ self.now.limit }
        ensures bounded { self.now.limit ≤ MAX_CONDITION + 1 }
    {
        self.facts.len() as u16
    }

    /// Makes room for so many conditions more. The table is as it was.
    pub fn reserve(&mut self, more: u16) -> Result<(), NoMemory>
        ensures ok { OnOk result (more ≤ self.new.room) }
        ensures facts { self.new.facts ≡ self.old.facts }
        ensures numerators { self.new.numerators ≡ self.old.numerators }
        ensures limit { self.new.limit ≡ self.old.limit }
    {
        self.facts.reserve(usize::from(more))?;
        self.numerators.reserve(usize::from(more))?;
        Ok(())
    }

    /// Prepares the condition of these facts, the last of the table, with nothing reported. It takes no memory.
    pub fn prepare(&mut self, oracle: AccountId, question: u64, slots: SlotCount) -> ConditionId
        requires absent { place_of (record { oracle = oracle; question = question; slots = slots }) self.old.facts ≡ None }
        requires within { length self.old.facts < self.old.limit }
        requires room { 0 < self.old.room }

        ensures number { result ≡ length self.old.facts }
        ensures facts { self.new.facts ≡ self.old.facts ++ record { oracle = oracle; question = question; slots = slots } ∷ [] }
        ensures numerators { self.new.numerators ≡ self.old.numerators ++ None ∷ [] }
        ensures limit { self.new.limit ≡ self.old.limit }
        ensures room { self.new.room + 1 ≡ self.old.room }
    {
        let number = self.facts.len() as u16;
        self.facts.push_reserved(Facts {
            oracle,
            question,
            slots,
        });
        self.numerators.push_reserved(None);
        match ConditionId::new(number) {
            Some(condition) => condition,
            None => unreachable!(),
        }
    }

    /// Reports numerators on a condition, one for each slot, and changes nothing else. It takes no memory.
    /// (Gnosis Conditional Tokens, developer documentation: reporting payouts.)
    pub fn report(&mut self, condition: ConditionId, numerators: Bits)
        requires unreported { numerators_at self.old.numerators condition ≡ None }
        requires report { MatchOption (slice_get self.old.facts condition) ⊥ (λ facts. IsReport facts.slots numerators) }

        ensures numerators { self.new.numerators ≡ slice_set self.old.numerators condition (Some numerators) }
        ensures facts { self.new.facts ≡ self.old.facts }
        ensures limit { self.new.limit ≡ self.old.limit }
        ensures room { self.new.room ≡ self.old.room }
    {
        self.numerators[usize::from(condition.get())] = Some(numerators);
    }
}

/// The first place of these facts in a table.
fn place_of(table: &[Facts], facts: Facts) -> Option<usize>
    ensures place { result ≡ place_of facts table.now }
    ensures within { IfSome result (λ place. place < length table.now) }
{
    table.iter().position(|other| {
        other.oracle == facts.oracle
            && other.question == facts.question
            && other.slots == facts.slots
    })
}

// The numerators that were reported, where any were.
fn slice_of(reported: &Option<Bits>) -> Option<&[u32]>
    ensures { MatchOption result (reported.now ≡ None) (λ ns. reported.now ≡ Some ns.now) }
{
    match reported {
        Some(numerators) => Some(numerators.as_slice()),
        None => None,
    }
}
