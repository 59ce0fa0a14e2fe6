ghost use Rattle.std.specs.Prelude.{◌≡◌};

use crate::line_fault::LineFault;
use crate::refusal::Refusal;
use condition_sets::{ConditionId, EventId, OrderId, Sums};

/// What a client is answered. `lsn` is the number of the act that the command became, from 0, and `rests` the
/// length of the history on which the reply rests.
#[derive(Debug, Drop)]
pub enum Reply {
    /// The command is act `lsn` now.
    Done {
        lsn: u64,
    },
    /// The condition has the number `condition`, and the command is act `lsn` now.
    Prepared {
        condition: ConditionId,
        lsn: u64,
    },
    /// The event has the number `event`, and the first of its conditions the number `first`.
    EventMade {
        event: EventId,
        first: ConditionId,
        lsn: u64,
    },
    /// Of each named set `paid` tells what was paid for it, in units of the parent position.
    Redeemed {
        lsn: u64,
        paid: Sums,
    },
    /// The caller got `out` of each YES, and `paid` collateral units.
    Converted {
        lsn: u64,
        out: u64,
        paid: u64,
    },
    /// The order has the number `order`.
    Placed {
        lsn: u64,
        order: OrderId,
    },
    /// The caller's nonce is `nonce` now.
    Bumped {
        lsn: u64,
        nonce: u64,
    },
    /// The taker paid the fee `fee` of what it got, `got`, and has `refund` of what it paid back.
    Matched {
        fee: u64,
        got: u64,
        lsn: u64,
        refund: u64,
    },
    /// `acts` acts were made, the first with the number `lsn`. `more` says that there may be more to cross, and `stop`
    /// is the number of the refusal that ended it, or 0.
    Crossed {
        acts: u64,
        lsn: u64,
        more: bool,
        stop: u8,
    },
    /// The account holds `amount` of the collection.
    Balanced {
        amount: u64,
        rests: u64,
    },
    /// `filled` of the order is filled, in units of what its maker pays, and `live` says whether it is open.
    Ordered {
        filled: u64,
        live: bool,
        rests: u64,
    },
    /// The vault holds `vault` collateral units.
    Vaulted {
        rests: u64,
        vault: u64,
    },
    /// The exchange refuses the command.
    Refused {
        refusal: Refusal,
        rests: u64,
    },
    /// The line is no request.
    Bad {
        fault: LineFault,
    },
}

impl Reply {
    ghost use Rattle.command_words.specs.Reply.{rests_of, IsSound};

    /// How many acts of the history the reply rests on: all of these have to be kept before it is told.
    pub fn rests(&self) -> u64
        requires { IsSound self.now }
        ensures { result ≡ rests_of self.now }
    {
        match self {
            Reply::Done { lsn } => *lsn + 1,
            Reply::Prepared { lsn, .. } => *lsn + 1,
            Reply::EventMade { lsn, .. } => *lsn + 1,
            Reply::Redeemed { lsn, .. } => *lsn + 1,
            Reply::Converted { lsn, .. } => *lsn + 1,
            Reply::Placed { lsn, .. } => *lsn + 1,
            Reply::Bumped { lsn, .. } => *lsn + 1,
            Reply::Matched { lsn, .. } => *lsn + 1,
            Reply::Crossed { acts, lsn, .. } => *lsn + *acts,
            Reply::Balanced { rests, .. } => *rests,
            Reply::Ordered { rests, .. } => *rests,
            Reply::Vaulted { rests, .. } => *rests,
            Reply::Refused { rests, .. } => *rests,
            Reply::Bad { .. } => 0,
        }
    }
}
