use condition_sets::{AccountId, Bits, ConditionId, EventId, Fills, OrderId, Pairs};
use order_rules::Side;

/// What a client asks, with the members of its request: 17 commands that become acts of the history where they are
/// accepted, `cross`, which becomes as many acts as it has turns, and three readings.
///
/// A key is a list of pairs, each of a condition and the bits of one of its index sets, with the conditions in
/// ascending order. (Gnosis Conditional Tokens, developer documentation; Polymarket CTF Exchange and NegRiskAdapter.)
#[derive(Debug, Drop)]
pub enum Command {
    /// Pays `amount` collateral units into the vault, as cash of the account `to`.
    Deposit {
        to: AccountId,
        amount: u64,
    },
    /// Pays `amount` of the caller's cash out of the vault.
    Withdraw {
        amount: u64,
    },
    /// Moves `amount` of the position of `key` from the caller to the account `to`.
    Move {
        to: AccountId,
        key: Pairs,
        amount: u64,
    },
    /// Prepares the condition of an oracle, a question and a number of outcome slots.
    Prepare {
        oracle: AccountId,
        question: u64,
        slots: u8,
    },
    /// Makes an event of so many questions, of which one at most comes out YES; `fee`, in basis points, is what a
    /// conversion pays.
    Event {
        oracle: AccountId,
        questions: u8,
        fee: u16,
    },
    /// Takes `amount` of the parent position from the caller, and pays as much of each of the condition's sets.
    Split {
        parent: Pairs,
        condition: ConditionId,
        sets: Bits,
        amount: u64,
    },
    /// Takes `amount` of each of the condition's sets from the caller, and pays as much of the parent position.
    Merge {
        parent: Pairs,
        condition: ConditionId,
        sets: Bits,
        amount: u64,
    },
    /// Reports how the condition came out: a numerator for each slot.
    Report {
        condition: ConditionId,
        payouts: Bits,
    },
    /// Answers one question of an event, counted from 0.
    Answer {
        event: EventId,
        question: u8,
        yes: bool,
    },
    /// Pays out all that the caller holds of each of the sets of a reported condition.
    Redeem {
        parent: Pairs,
        condition: ConditionId,
        sets: Bits,
    },
    /// Converts `amount` of NO of each question in a bit set into YES of the others, and cash.
    Convert {
        event: EventId,
        set: u32,
        amount: u64,
    },
    /// Opens a market for orders on a condition.
    Market {
        condition: ConditionId,
    },
    /// Places an order in a market for the token of a set, 1 for YES and 2 for NO. `making` is what the maker pays,
    /// `taking` what it wants for it; `expires` is a moment, or 0 for never, and `fee` is in basis points.
    Place {
        market: ConditionId,
        set: u8,
        side: Side,
        making: u64,
        taking: u64,
        expires: u64,
        nonce: u64,
        fee: u16,
    },
    /// Cancels an order of the caller.
    Cancel {
        order: OrderId,
    },
    /// Raises the caller's nonce by one, which makes its older orders void.
    Bump,
    /// Matches a taker's order, by a fill, with makers' orders, each by its own.
    Match {
        taker: OrderId,
        fill: u64,
        makers: Fills,
    },
    /// Closes an order that can't be filled any more.
    Lapse {
        order: OrderId,
    },
    /// Matches what crosses in a market, turn by turn.
    Cross {
        market: ConditionId,
    },
    /// Asks what the account `of` holds of the position of a key.
    Balance {
        of: AccountId,
        key: Pairs,
    },
    /// Asks how far an order is filled, and whether it is open.
    Order {
        order: OrderId,
    },
    /// Asks what the vault holds.
    Vault,
}

impl Command {
    ghost use Rattle.std.specs.Prelude.{◌≡◌};
    ghost use Rattle.command_words.specs.Command.{makes_act};

    /// Whether the command becomes an act of the history where it is accepted. `cross` doesn't, though its turns do.
    pub fn makes_act(&self) -> bool
        ensures { result ≡ makes_act self.now }
    {
        match self {
            Command::Cross { .. } => false,
            Command::Balance { .. } => false,
            Command::Order { .. } => false,
            Command::Vault => false,
            _ => true,
        }
    }
}
