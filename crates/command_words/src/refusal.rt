ghost use Rattle.std.specs.Prelude.{◌≡◌};
ghost use Rattle.command_words.specs.declared.refusal.Refusal.TheVariants.{Memory};

use condition_sets::NoMemory;
use std::alloc::AllocError;

/// Why an exchange refuses a command. `place` counts the places of a command: of a match the taker is place 0 and
/// the makers are places 1, 2 and so on.
#[derive(Clone, Copy, Debug, PartialEq, Eq)]
pub enum Refusal {
    /// The account may not ask this, or the command names the exchange's own account.
    NotAllowed,
    /// A condition that the command names isn't prepared, or the event has no question of that place.
    NoCondition,
    /// The condition of this oracle, question and number of slots is prepared already, or it is a market already.
    AlreadyPrepared,
    /// No condition, event or open order more can be had.
    TableFull,
    /// A set isn't proper for its condition, or is none that the command can take.
    BadSet,
    /// The sets are fewer than two, or two of them meet.
    BadPartition,
    /// The parent has the condition already.
    Held,
    /// A key has more pairs than a collection.
    TooDeep,
    /// The condition has its numerators already.
    AlreadyReported,
    /// The numerators aren't one for each slot, or their sum is 0.
    BadPayouts,
    /// The condition has no numerators yet.
    NotReported,
    /// The event isn't there.
    NoEvent,
    /// The question `winner` of the event was answered YES.
    Determined { winner: u8 },
    /// The condition is no market.
    NoMarket,
    /// The number of the order at `place` was never given.
    NoOrder { place: u8 },
    /// The order at `place`, of which `filled` is filled, isn't open.
    NotOpen { filled: u64, place: u8 },
    /// The order at `place` has expired.
    OrderExpired { place: u8 },
    /// The order at `place` has another nonce than its maker's present one, which is `nonce`.
    NonceOld { nonce: u64, place: u8 },
    /// The maker's order at `place` is of the taker's account.
    SelfMatch { place: u8 },
    /// The order at `place` is named at an earlier place.
    RepeatedOrder { place: u8 },
    /// The order at `place` is of another market than the taker's, or can't be matched with it in any kind.
    WrongPair { place: u8 },
    /// The order at `place` doesn't cross the taker's: the prices are in units of 10^-18.
    NotCrossing { maker: u128, place: u8, taker: u128 },
    /// The fill at `place` is above what is left of its order, which is `remaining`.
    Overfill { place: u8, remaining: u64 },
    /// The account has `have` of what the command takes at `place`, and that is less than it takes.
    Unfunded { have: u64, place: u8 },
    /// The exchange has less than the maker at `place` would get.
    ExchangeShort { place: u8 },
    /// The taker would get `got`, which is less than its order's limit for the fill, `floor`.
    TooLittle { floor: u64, got: u64 },
    /// The order is live, and its maker's balance `have` covers it.
    Funded { have: u64 },
    /// The vault, which holds `vault` units, would come to hold more than the limit.
    VaultLimit { vault: u64 },
    /// A supply would come to be above the limit; `supply` is the present one of the least such collection.
    SupplyLimit { supply: u64 },
    /// There would be more balances that aren't 0 than the limit.
    EntriesLimit,
    /// The history has as many acts as its limit.
    HistoryFull,
    /// `capacity` acts wait to be stored, and no more may.
    Busy { capacity: u32 },
    /// Memory was wanting. It may be answered at any time, and changes nothing.
    Memory,
}

impl Refusal {
    ghost use Rattle.command_words.specs.Refusal.{code_of};

    /// The refusal's number, which clients see.
    pub fn code(&self) -> u8
        ensures { result ≡ code_of self.now }
    {
        match self {
            Refusal::NotAllowed => 5,
            Refusal::NoCondition => 6,
            Refusal::AlreadyPrepared => 7,
            Refusal::TableFull => 8,
            Refusal::BadSet => 9,
            Refusal::BadPartition => 10,
            Refusal::Held => 11,
            Refusal::TooDeep => 12,
            Refusal::AlreadyReported => 13,
            Refusal::BadPayouts => 14,
            Refusal::NotReported => 15,
            Refusal::NoEvent => 16,
            Refusal::Determined { .. } => 17,
            Refusal::NoMarket => 18,
            Refusal::NoOrder { .. } => 19,
            Refusal::NotOpen { .. } => 20,
            Refusal::OrderExpired { .. } => 21,
            Refusal::NonceOld { .. } => 22,
            Refusal::SelfMatch { .. } => 23,
            Refusal::RepeatedOrder { .. } => 24,
            Refusal::WrongPair { .. } => 25,
            Refusal::NotCrossing { .. } => 26,
            Refusal::Overfill { .. } => 27,
            Refusal::Unfunded { .. } => 28,
            Refusal::ExchangeShort { .. } => 29,
            Refusal::TooLittle { .. } => 30,
            Refusal::Funded { .. } => 31,
            Refusal::VaultLimit { .. } => 32,
            Refusal::SupplyLimit { .. } => 33,
            Refusal::EntriesLimit => 34,
            Refusal::HistoryFull => 35,
            Refusal::Busy { .. } => 36,
            Refusal::Memory => 37,
        }
    }
}

impl From<NoMemory> for Refusal {
    ghost from_gives = { λ _ refusal. refusal ≡ Memory };

    fn from(_error: NoMemory) -> Refusal {
        Refusal::Memory
    }
}

impl From<AllocError> for Refusal {
    ghost from_gives = { λ _ refusal. refusal ≡ Memory };

    fn from(_error: AllocError) -> Refusal {
        Refusal::Memory
    }
}
