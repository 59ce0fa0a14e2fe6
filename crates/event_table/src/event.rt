//! An event as the table keeps it.

ghost use Rattle.std.specs.Prelude.{◌≡◌, ℕ, ◌≤◌, length, slice_get, Some, None, IfSome, vec_len};
ghost use Rattle.event_table.specs.Events.{AreDistinct, answered, facts_of, is_yes};
ghost use Rattle.event_table.specs.declared.events.TheConstants.{MAX_BIPS, MAX_QUESTIONS, MIN_QUESTIONS};

use crate::events::EventFacts;
use condition_sets::{AccountId, ConditionId};
use std::marker::Model;

// An event's questions are its conditions, by their places.
#[derive(Drop)]
pub(crate) struct Event {
    oracle: AccountId,
    bips: u16,
    conditions: Vec<ConditionId>,
    winner: Option<u8>,
}

impl Model for Event {
    ghost use Rattle.std.specs.Prelude.{◌≤◌, vec_len};
    ghost use Rattle.event_table.specs.Events.{EventView, AreDistinct};
    ghost use Rattle.event_table.specs.declared.events.TheConstants.{MAX_BIPS, MAX_QUESTIONS, MIN_QUESTIONS};

    ghost Value = { EventView };

    ghost view = { λ e. record { oracle = e.oracle; bips = e.bips; conditions = e.conditions.items; winner = e.winner } };

    ghost invariant = { λ e. (e.bips ≤ MAX_BIPS) × (MIN_QUESTIONS ≤ vec_len e.conditions) × (vec_len e.conditions ≤ MAX_QUESTIONS) × AreDistinct e.conditions.items };
}

impl Event {
    // An event of these questions, none of which is answered.
    pub(crate) fn new(oracle: AccountId, bips: u16, conditions: Vec<ConditionId>) -> Event
        requires bips { bips ≤ MAX_BIPS }
        requires some { MIN_QUESTIONS ≤ vec_len conditions }
        requires few { vec_len conditions ≤ MAX_QUESTIONS }
        requires distinct { AreDistinct conditions.items }

        ensures { result ≡ record { oracle = oracle; bips = bips; conditions = conditions.items; winner = None } }
    {
        Event {
            oracle,
            bips,
            conditions,
            winner: None,
        }
    }

    // Its facts, with what holds of every event.
    pub(crate) fn facts(&self) -> EventFacts
        ensures value { result ≡ facts_of self.now }
        ensures bips { result.bips ≤ MAX_BIPS }
        ensures distinct { AreDistinct self.now.conditions }
        ensures questions { (MIN_QUESTIONS ≤ result.questions) × (result.questions ≤ MAX_QUESTIONS) }
    {
        EventFacts {
            oracle: self.oracle,
            bips: self.bips,
            questions: self.conditions.len() as u8,
        }
    }

    // The condition of the question at a place, where there is one.
    pub(crate) fn question(&self, place: u8) -> Option<ConditionId>
        ensures { result ≡ slice_get self.now.conditions place }
    {
        self.conditions.get(usize::from(place)).copied()
    }

    // The place of the question whose condition this is.
    pub(crate) fn place_of(&self, c: ConditionId) -> Option<u8>
        ensures some { IfSome result (λ place. slice_get self.now.conditions place ≡ Some c) }
        ensures none { result ≡ None → (place : ℕ) → slice_get self.now.conditions place ≡ Some c → ⊥ }
    {
        for (place, other) in self.conditions.iter().enumerate() {
            if *other == c {
                return Some(place as u8);
            }
        }
        None
    }

    // The place of the question that was answered YES.
    pub(crate) fn winner(&self) -> Option<u8>
        ensures { result ≡ self.now.winner }
    {
        self.winner
    }

    // Keeps the place of a question where the answer to it is YES.
    pub(crate) fn answer(&mut self, place: u8, numerators: &[u32])
        ensures { self.new ≡ answered self.old place numerators.now }
    {
        if is_yes(numerators) {
            self.winner = Some(place);
        }
    }
}

// Whether the first numerator is 1.
fn is_yes(numerators: &[u32]) -> bool
    ensures { result ≡ is_yes numerators.now }
{
    match numerators {
        [first, ..] => *first == 1,
        [] => false,
    }
}
