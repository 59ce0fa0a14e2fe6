ghost use Rattle.std.specs.Prelude.{◌≡◌, ⊤, ℕ, ◌+◌, ◌<◌, ◌≤◌, [], ◌∷◌, ◌++◌, length, slice_get, slice_set, replicate, Some, None, IfOk, IfSome, MatchOption, OnOk, option_map, vec_capacity, vec_len};
ghost use Rattle.condition_sets.specs.declared.names.TheConstants.{MAX_EVENT};
ghost use Rattle.event_table.specs.Events.{AreDistinct, AreNew, MayAnswer, answered, facts_of, numbers_from, question_in, questions_from, winner_in};
ghost use Rattle.event_table.specs.declared.events.TheConstants.{MAX_BIPS, MAX_QUESTIONS, MIN_QUESTIONS};

use crate::event::Event;
use condition_sets::{AccountId, Bits, ConditionId, EXCHANGE, EventId, NoMemory, SlotCount};
use condition_table::Conditions;
use std::alloc::Global;
use std::marker::Model;
use std::mem;

/// The fewest questions of an event.
pub const MIN_QUESTIONS: u8 = 2;

/// The most questions of an event.
pub const MAX_QUESTIONS: u8 = 32;

/// The most that a conversion costs, in basis points of the amount.
pub const MAX_BIPS: u16 = 10_000;

/// Who answers an event's questions, what a conversion of its shares costs in basis points, and how many questions it has.
#[derive(Clone, Copy, Debug, PartialEq, Eq)]
pub struct EventFacts {
    pub oracle: AccountId,
    pub bips: u16,
    pub questions: u8,
}

/// The events that were made, numbered from 0, with what was answered YES.
///
/// Contracts see the list of events, how many there may be, and how many questions the next may have without taking memory.
#[derive(Drop)]
pub struct Events {
    events: Vec<Event>,
    // Always empty: it keeps the room for the next event's questions.
    spare: Vec<ConditionId>,
    limit: u16,
}

impl Model for Events {
    ghost use Rattle.std.specs.Prelude.{◌≡◌, [], ◌+◌, ◌≤◌, nat_lt, if◌then◌else◌, vec_len, vec_capacity};
    ghost use Rattle.condition_sets.specs.declared.names.TheConstants.{MAX_EVENT};
    ghost use Rattle.event_table.specs.Events.{EventsView};

    ghost Value = { EventsView };

    ghost view = { λ t. record { events = t.events.items; limit = t.limit; room = if nat_lt (vec_len t.events) (vec_capacity t.events) then vec_capacity t.spare else 0 } };

    ghost invariant = { λ t. (vec_len t.events ≤ t.limit) × (t.limit ≤ MAX_EVENT + 1) × (t.spare.items ≡ []) };
}

impl Events {
    /// No event is made, and at most `limit` will be.
    pub fn new(alloc: Global, limit: u16) -> Result<Events, NoMemory>
        requires { limit ≤ MAX_EVENT + 1 }

        ensures events { IfOk result (λ events. events.events ≡ []) }
        ensures limit { IfOk result (λ events. events.limit ≡ limit) }
    {
        Ok(Events {
            events: Vec::new(alloc),
            spare: Vec::new(alloc),
            limit,
        })
    }

    /// How many events are made. It takes no memory.
    pub fn len(&self) -> u16
        ensures value { result ≡ length self.now.events }
        ensures within { result ≤ self.now.limit }
        ensures bounded { self.now.limit ≤ MAX_EVENT + 1 }
    {
        self.events.len() as u16
    }

    /// The facts of an event; `None` exactly where it isn't made. It takes no memory.
    pub fn get(&self, e: EventId) -> Option<EventFacts>
        ensures value { result ≡ option_map facts_of (slice_get self.now.events e) }
        ensures bips { IfSome result (λ facts. facts.bips ≤ MAX_BIPS) }
        ensures distinct { MatchOption (slice_get self.now.events e) ⊤ (λ event. AreDistinct event.conditions) }
        ensures questions { IfSome result (λ facts. (MIN_QUESTIONS ≤ facts.questions) × (facts.questions ≤ MAX_QUESTIONS)) }
    {
        let event = self.events.get(usize::from(e.get()))?;
        Some(event.facts())
    }

    /// The condition of an event's question; `None` exactly where there is no such event or question. It takes no memory.
    pub fn question(&self, e: EventId, place: u8) -> Option<ConditionId>
        ensures { result ≡ question_in self.now.events e place }
    {
        let event = self.events.get(usize::from(e.get()))?;
        event.question(place)
    }

    /// The event and the place of the question whose condition this is; `None` exactly where it is no question's. It takes
    /// no memory.
    pub fn event_of(&self, c: ConditionId) -> Option<(EventId, u8)>
        ensures some { IfSome result (λ at. question_in self.now.events at.0 at.1 ≡ Some c) }
        ensures none { result ≡ None → (e place : ℕ) → question_in self.now.events e place ≡ Some c → ⊥ }
    {
        let (e, place) = place_in(&self.events, c)?;
        match EventId::new(e as u16) {
            Some(e) => Some((e, place)),
            None => unreachable!(),
        }
    }

    /// The place of the question that was answered YES; `None` exactly where there is no such event, or none was. It takes
    /// no memory.
    pub fn winner(&self, e: EventId) -> Option<u8>
        ensures { result ≡ winner_in self.now.events e }
    {
        let event = self.events.get(usize::from(e.get()))?;
        event.winner()
    }

    /// Makes room for an event of so many questions, and for their conditions. Both tables are as they were.
    pub fn reserve(&mut self, conditions: &mut Conditions, questions: u8) -> Result<(), NoMemory>
        ensures ok { OnOk result ((questions ≤ self.new.room) × (questions ≤ conditions.new.room)) }
        ensures events { self.new.events ≡ self.old.events }
        ensures limit { self.new.limit ≡ self.old.limit }
        ensures facts { conditions.new.facts ≡ conditions.old.facts }
        ensures numerators { conditions.new.numerators ≡ conditions.old.numerators }
        ensures conditions_limit { conditions.new.limit ≡ conditions.old.limit }
    {
        self.events.reserve(1)?;
        self.spare.reserve(usize::from(questions))?;
        conditions.reserve(u16::from(questions))?;
        Ok(())
    }

    /// Makes an event, the last of the table, and prepares the conditions of its questions, the last of theirs. It takes no
    /// memory.
    pub fn make(
        &mut self,
        conditions: &mut Conditions,
        oracle: AccountId,
        bips: u16,
        questions: u8,
    ) -> EventId
        requires bips { bips ≤ MAX_BIPS }
        requires some { MIN_QUESTIONS ≤ questions }
        requires few { questions ≤ MAX_QUESTIONS }
        requires new { AreNew (length self.old.events) questions conditions.old.facts }
        requires within { length self.old.events < self.old.limit }
        requires room { questions ≤ self.old.room }
        requires conditions_within { length conditions.old.facts + questions ≤ conditions.old.limit }
        requires conditions_room { questions ≤ conditions.old.room }

        ensures number { result ≡ length self.old.events }
        ensures events { self.new.events ≡ self.old.events ++ record { oracle = oracle; bips = bips; conditions = numbers_from (length conditions.old.facts) questions; winner = None } ∷ [] }
        ensures limit { self.new.limit ≡ self.old.limit }
        ensures facts { conditions.new.facts ≡ conditions.old.facts ++ questions_from (length self.old.events) 0 questions }
        ensures numerators { conditions.new.numerators ≡ conditions.old.numerators ++ replicate questions None }
        ensures conditions_limit { conditions.new.limit ≡ conditions.old.limit }
        ensures conditions_room { conditions.new.room + questions ≡ conditions.old.room }
    {
        let number = self.events.len() as u16;
        let empty = Vec::new(*self.events.allocator());
        let spare = mem::replace(&mut self.spare, empty);
        let prepared = prepare(conditions, number, questions, spare);
        self.events
            .push_reserved(Event::new(oracle, bips, prepared));
        match EventId::new(number) {
            Some(e) => e,
            None => unreachable!(),
        }
    }

    /// Answers an event's question: it reports on the question's condition, and keeps the place where it is YES. Nothing
    /// else changes. It takes no memory.
    pub fn answer(&mut self, conditions: &mut Conditions, e: EventId, place: u8, numerators: Bits)
        requires { MatchOption (slice_get self.old.events e) ⊥ (λ event. MatchOption (slice_get event.conditions place) ⊥ (λ c. MayAnswer event conditions.old c numerators)) }

        ensures events { MatchOption (slice_get self.old.events e) ⊥ (λ event. self.new.events ≡ slice_set self.old.events e (answered event place numerators)) }
        ensures numerators { MatchOption (question_in self.old.events e place) ⊥ (λ c. conditions.new.numerators ≡ slice_set conditions.old.numerators c (Some numerators)) }
        ensures facts { conditions.new.facts ≡ conditions.old.facts }
        ensures limit { self.new.limit ≡ self.old.limit }
        ensures conditions_limit { conditions.new.limit ≡ conditions.old.limit }
        ensures room { self.new.room ≡ self.old.room }
        ensures conditions_room { conditions.new.room ≡ conditions.old.room }
    {
        let event = &mut self.events[usize::from(e.get())];
        event.answer(place, numerators.as_slice());
        match event.question(place) {
            Some(c) => conditions.report(c, numerators),
            None => unreachable!(),
        }
    }
}

// The place of an event and of a question of it whose condition this is.
fn place_in(events: &[Event], c: ConditionId) -> Option<(usize, u8)>
    ensures some { IfSome result (λ at. question_in events.now at.0 at.1 ≡ Some c) }
    ensures within { IfSome result (λ at. at.0 < length events.now) }
    ensures none { result ≡ None → (e place : ℕ) → question_in events.now e place ≡ Some c → ⊥ }
{
    for (e, event) in events.iter().enumerate() {
        if let Some(place) = event.place_of(c) {
            return Some((e, place));
        }
    }
    None
}

// Prepares the conditions of an event's questions, and puts their numbers into a list.
fn prepare(
    conditions: &mut Conditions,
    event: u16,
    questions: u8,
    mut list: Vec<ConditionId>,
) -> Vec<ConditionId>
    requires new { AreNew event questions conditions.old.facts }
    requires within { length conditions.old.facts + questions ≤ conditions.old.limit }
    requires room { questions ≤ conditions.old.room }
    requires empty { list.items ≡ [] }
    requires list_room { questions ≤ vec_capacity list }

    ensures list { result.items ≡ numbers_from (length conditions.old.facts) questions }
    ensures facts { conditions.new.facts ≡ conditions.old.facts ++ questions_from event 0 questions }
    ensures numerators { conditions.new.numerators ≡ conditions.old.numerators ++ replicate questions None }
    ensures limit { conditions.new.limit ≡ conditions.old.limit }
    ensures room { conditions.new.room + questions ≡ conditions.old.room }
{
    for place in 0..questions {
        let question = 32 * u64::from(event) + u64::from(place);
        let condition = conditions.prepare(AccountId(EXCHANGE), question, two_slots());
        list.push_reserved(condition);
    }
    list
}

// A slot for YES and one for NO.
fn two_slots() -> SlotCount
    ensures { result ≡ 2 }
{
    match SlotCount::new(2) {
        Some(slots) => slots,
        None => unreachable!(),
    }
}
