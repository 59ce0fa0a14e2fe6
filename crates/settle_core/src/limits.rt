ghost use Rattle.std.specs.Prelude.{◌≡◌, ◌↔◌, ◌+◌, ◌<◌, ◌≤◌, IsSome, IfSome};
ghost use Rattle.condition_sets.specs.declared.names.TheConstants.{MAX_CONDITION, MAX_EVENT};

use command_words::MAX_HISTORY;
use ledger_book::MAX_ENTRIES;
use std::marker::Model;

/// The most conditions that are prepared.
const STANDARD_CONDITIONS: u16 = 4_096;

/// The most events that are made.
const STANDARD_EVENTS: u16 = 512;

/// The most open orders of one market.
const STANDARD_ORDERS: u32 = 10_000;

/// The most turns of one crossing.
pub const MAX_TURNS: u32 = 1_000;

/// How many conditions, events, open orders of a market, nonzero balances and acts an exchange holds at the most.
#[derive(Clone, Copy, Debug, PartialEq, Eq)]
pub struct Limits {
    conditions: u16,
    events: u16,
    orders: u32,
    entries: u32,
    history: u32,
}

impl Model for Limits {
    ghost use Rattle.settle_core.specs.Bounds.{Bounds, AreLimits};

    ghost Value = { Bounds };

    ghost use Rattle.settle_core.specs.Limits.{bounds_of};

    ghost view = { bounds_of };

    ghost invariant = { λ l. AreLimits (bounds_of l) };

    ghost inverse = { λ b. record { conditions = b.conditions; events = b.events; orders = b.orders; entries = b.entries; history = b.history } };
}

impl Limits {
    ghost use Rattle.settle_core.specs.Bounds.{standard, AreLimits};

    /// The limits that the program has.
    pub fn standard() -> Limits
        ensures { result ≡ standard }
    {
        Limits {
            conditions: STANDARD_CONDITIONS,
            events: STANDARD_EVENTS,
            orders: STANDARD_ORDERS,
            entries: MAX_ENTRIES,
            history: MAX_HISTORY,
        }
    }

    /// Limits for tests: `None` exactly where one is 0 or above the standard one.
    pub fn small(
        conditions: u16,
        events: u16,
        orders: u32,
        entries: u32,
        history: u32,
    ) -> Option<Limits>
        ensures valid { IsSome result ↔ AreLimits (record { conditions = conditions; events = events; orders = orders; entries = entries; history = history }) }
        ensures value { IfSome result (λ limits. limits ≡ record { conditions = conditions; events = events; orders = orders; entries = entries; history = history }) }
    {
        let fits = conditions >= 1
            && conditions <= STANDARD_CONDITIONS
            && events >= 1
            && events <= STANDARD_EVENTS
            && orders >= 1
            && orders <= STANDARD_ORDERS
            && entries >= 1
            && entries <= MAX_ENTRIES
            && history >= 1
            && history <= MAX_HISTORY;
        if fits {
            Some(Limits {
                conditions,
                events,
                orders,
                entries,
                history,
            })
        } else {
            None
        }
    }

    /// The most conditions that may be prepared.
    pub fn conditions(&self) -> u16
        ensures value { result ≡ self.now.conditions }
        ensures within { result ≤ MAX_CONDITION + 1 }
    {
        self.conditions
    }

    /// The most events that may be made.
    pub fn events(&self) -> u16
        ensures value { result ≡ self.now.events }
        ensures within { result ≤ MAX_EVENT + 1 }
    {
        self.events
    }

    /// The most open orders of a market.
    pub fn orders(&self) -> u32
        ensures value { result ≡ self.now.orders }
        ensures some { 0 < result }
    {
        self.orders
    }

    /// The most balances that are other than 0.
    pub fn entries(&self) -> u32
        ensures value { result ≡ self.now.entries }
        ensures within { result ≤ MAX_ENTRIES }
    {
        self.entries
    }

    /// The most acts of a history.
    pub fn history(&self) -> u32
        ensures value { result ≡ self.now.history }
        ensures within { result ≤ MAX_HISTORY }
    {
        self.history
    }
}
