ghost use Rattle.std.specs.Prelude.{◌≡◌, ◌≤◌, length};
ghost use Rattle.wire_json.specs.ReplyText.{refusal_name, fault_name};

use command_words::{LineFault, Refusal};

/// The name of a refusal, which clients see.
pub(crate) fn refusal_name(refusal: &Refusal) -> &'static str
    ensures text { result.now ≡ refusal_name refusal.now }
    ensures short { length result.now ≤ 15 }
{
    match refusal {
        Refusal::NotAllowed => "NotAllowed",
        Refusal::NoCondition => "NoCondition",
        Refusal::AlreadyPrepared => "AlreadyPrepared",
        Refusal::TableFull => "TableFull",
        Refusal::BadSet => "BadSet",
        Refusal::BadPartition => "BadPartition",
        Refusal::Held => "Held",
        Refusal::TooDeep => "TooDeep",
        Refusal::AlreadyReported => "AlreadyReported",
        Refusal::BadPayouts => "BadPayouts",
        Refusal::NotReported => "NotReported",
        Refusal::NoEvent => "NoEvent",
        Refusal::Determined { .. } => "Determined",
        Refusal::NoMarket => "NoMarket",
        Refusal::NoOrder { .. } => "NoOrder",
        Refusal::NotOpen { .. } => "NotOpen",
        Refusal::OrderExpired { .. } => "OrderExpired",
        Refusal::NonceOld { .. } => "NonceOld",
        Refusal::SelfMatch { .. } => "SelfMatch",
        Refusal::RepeatedOrder { .. } => "RepeatedOrder",
        Refusal::WrongPair { .. } => "WrongPair",
        Refusal::NotCrossing { .. } => "NotCrossing",
        Refusal::Overfill { .. } => "Overfill",
        Refusal::Unfunded { .. } => "Unfunded",
        Refusal::ExchangeShort { .. } => "ExchangeShort",
        Refusal::TooLittle { .. } => "TooLittle",
        Refusal::Funded { .. } => "Funded",
        Refusal::VaultLimit { .. } => "VaultLimit",
        Refusal::SupplyLimit { .. } => "SupplyLimit",
        Refusal::EntriesLimit => "EntriesLimit",
        Refusal::HistoryFull => "HistoryFull",
        Refusal::Busy { .. } => "Busy",
        Refusal::Memory => "Memory",
    }
}

/// The name of a fault of a line, which clients see.
pub(crate) fn fault_name(fault: &LineFault) -> &'static str
    ensures text { result.now ≡ fault_name fault.now }
    ensures short { length result.now ≤ 15 }
{
    match fault {
        LineFault::TooLong => "TooLong",
        LineFault::NotJson => "NotJson",
        LineFault::NotCommand => "NotCommand",
        LineFault::OutOfRange => "OutOfRange",
        LineFault::Memory => "Memory",
    }
}
