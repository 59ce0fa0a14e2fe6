ghost use Rattle.std.specs.Prelude.{◌≡◌, ℕ, ◌≤◌, ◌<◌, ◌^◌, ◌↔◌, IsSome, IfSome};
ghost use Rattle.condition_sets.specs.declared.names.TheConstants.{MAX_CONDITION, MAX_EVENT};

use std::marker::Model;

/// The highest number of a condition.
pub const MAX_CONDITION: u16 = 4_095;

/// The highest number of an event.
pub const MAX_EVENT: u16 = 511;

/// The number of the operator's account, which also receives the fees.
pub const OPERATOR: u16 = 0;

/// The number of the exchange's own account.
pub const EXCHANGE: u16 = 1;

/// An account: [`OPERATOR`], [`EXCHANGE`], or a holder.
#[derive(Clone, Copy, Debug, PartialEq, Eq, Hash, PartialOrd, Ord)]
pub struct AccountId(pub u16);

/// An order, numbered from 0 as orders are placed.
#[derive(Clone, Copy, Debug, PartialEq, Eq, Hash, PartialOrd, Ord)]
pub struct OrderId(pub u32);

/// The number of an act in the history, from 0.
#[derive(Clone, Copy, Debug, PartialEq, Eq)]
pub struct Lsn(pub u64);

/// A condition, numbered from 0 as conditions are prepared: at most [`MAX_CONDITION`].
#[derive(Clone, Copy, Debug, PartialEq, Eq, Hash, PartialOrd, Ord)]
pub struct ConditionId {
    number: u16,
}

/// An event, numbered from 0 as events are made: at most [`MAX_EVENT`].
#[derive(Clone, Copy, Debug, PartialEq, Eq)]
pub struct EventId {
    number: u16,
}

impl Model for AccountId {
    ghost Value = { ℕ };

    ghost view = { λ a. a.0 };

    ghost inverse = { λ n. record { 0 = n } };
}

impl Model for OrderId {
    ghost Value = { ℕ };

    ghost view = { λ o. o.0 };

    ghost inverse = { λ n. record { 0 = n } };
}

impl Model for Lsn {
    ghost Value = { ℕ };

    ghost view = { λ l. l.0 };

    ghost inverse = { λ n. record { 0 = n } };
}

impl Model for ConditionId {
    ghost Value = { ℕ };

    ghost view = { λ c. c.number };

    ghost invariant = { λ c. c.number ≤ MAX_CONDITION };

    ghost inverse = { λ n. record { number = n } };
}

impl Model for EventId {
    ghost Value = { ℕ };

    ghost view = { λ e. e.number };

    ghost invariant = { λ e. e.number ≤ MAX_EVENT };

    ghost inverse = { λ n. record { number = n } };
}

impl AccountId {
    /// The account's number.
    pub fn get(&self) -> u16
        ensures { result ≡ self.now }
    {
        self.0
    }
}

impl OrderId {
    /// The order's number.
    pub fn get(&self) -> u32
        ensures { result ≡ self.now }
    {
        self.0
    }
}

impl Lsn {
    /// The act's number.
    pub fn get(&self) -> u64
        ensures { result ≡ self.now }
    {
        self.0
    }
}

impl ConditionId {
    /// `None` exactly above [`MAX_CONDITION`].
    pub fn new(n: u16) -> Option<ConditionId>
        ensures valid { IsSome result ↔ (n ≤ MAX_CONDITION) }
        ensures value { IfSome result (λ condition. condition ≡ n) }
    {
        if n <= MAX_CONDITION {
            Some(ConditionId { number: n })
        } else {
            None
        }
    }

    /// The condition's number.
    pub fn get(&self) -> u16
        ensures value { result ≡ self.now }
        ensures within { result ≤ MAX_CONDITION }
    {
        self.number
    }
}

impl EventId {
    /// `None` exactly above [`MAX_EVENT`].
    pub fn new(n: u16) -> Option<EventId>
        ensures valid { IsSome result ↔ (n ≤ MAX_EVENT) }
        ensures value { IfSome result (λ event. event ≡ n) }
    {
        if n <= MAX_EVENT {
            Some(EventId { number: n })
        } else {
            None
        }
    }

    /// The event's number.
    pub fn get(&self) -> u16
        ensures value { result ≡ self.now }
        ensures within { result ≤ MAX_EVENT }
    {
        self.number
    }
}
