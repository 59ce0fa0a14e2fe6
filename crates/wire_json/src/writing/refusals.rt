ghost use Rattle.std.specs.Prelude.{◌≡◌, ◌+◌, ◌≤◌, [], ◌∷◌, length, fold};
ghost use Rattle.wire_json.specs.Members.{put};
ghost use Rattle.wire_json.specs.ReplyText.{number_member, place_member, first_members, middle_members, last_members, refusal_members};
ghost use Rattle.wire_json.specs.declared.text.TheConstants.{TEXT_BYTES};

use crate::text::Text;
use crate::writing::names::refusal_name;
use crate::writing::pairs::{put_named, put_two};
use command_words::Refusal;

/// Puts the members of a refusal on a history of `rests` acts.
pub(crate) fn put_refusal(refusal: &Refusal, rests: u64, into: &mut Text)
    requires { into.old ≡ [] }
    ensures text { into.new ≡ fold put [] (refusal_members refusal.now rests) }
    ensures short { length into.new ≤ 500 }
{
    match refusal {
        Refusal::Memory => put_named(refusal.code(), refusal_name(refusal), into),
        _ => {
            put_first(refusal, into);
            put_named(refusal.code(), refusal_name(refusal), into);
            put_middle(refusal, into);
            into.put_number("rests", rests);
            put_last(refusal, into);
        }
    }
}

/// Puts the members of a refusal whose names come before `code`.
fn put_first(refusal: &Refusal, into: &mut Text)
    requires { length into.old + 32 ≤ TEXT_BYTES }
    ensures text { into.new ≡ fold put into.old (first_members refusal.now) }
    ensures short { length into.new ≤ length into.old + 32 }
{
    match refusal {
        Refusal::Busy { capacity } => into.put_number("capacity", u64::from(*capacity)),
        _ => {}
    }
}

/// Puts those whose names come between `error` and `rests`.
fn put_middle(refusal: &Refusal, into: &mut Text)
    requires { length into.old + 100 ≤ TEXT_BYTES }
    ensures text { into.new ≡ fold put into.old (middle_members refusal.now) }
    ensures short { length into.new ≤ length into.old + 100 }
{
    match refusal {
        Refusal::NoOrder { place }
        | Refusal::OrderExpired { place }
        | Refusal::SelfMatch { place }
        | Refusal::RepeatedOrder { place }
        | Refusal::WrongPair { place }
        | Refusal::ExchangeShort { place } => put_place(*place, into),
        Refusal::NotOpen { filled, place } => put_at("filled", *filled, *place, into),
        Refusal::NonceOld { nonce, place } => put_at("nonce", *nonce, *place, into),
        Refusal::Unfunded { have, place } => put_at("have", *have, *place, into),
        Refusal::NotCrossing { maker, place, .. } => {
            into.put_wide("maker", *maker);
            put_place(*place, into);
        }
        Refusal::Overfill { place, remaining } => {
            put_place(*place, into);
            into.put_number("remaining", *remaining);
        }
        Refusal::TooLittle { floor, got } => put_two("floor", *floor, "got", *got, into),
        Refusal::Funded { have } => into.put_number("have", *have),
        _ => {}
    }
}

/// Puts those whose names come behind `rests`.
fn put_last(refusal: &Refusal, into: &mut Text)
    requires { length into.old + 50 ≤ TEXT_BYTES }
    ensures text { into.new ≡ fold put into.old (last_members refusal.now) }
    ensures short { length into.new ≤ length into.old + 50 }
{
    match refusal {
        Refusal::Determined { winner } => into.put_number("winner", u64::from(*winner)),
        Refusal::NotCrossing { taker, .. } => into.put_wide("taker", *taker),
        Refusal::VaultLimit { vault } => into.put_number("vault", *vault),
        Refusal::SupplyLimit { supply } => into.put_number("supply", *supply),
        _ => {}
    }
}

/// Puts a number, and the place behind it.
fn put_at(name: &str, number: u64, place: u8, into: &mut Text)
    requires { length into.old + length name.now + 53 ≤ TEXT_BYTES }
    ensures text { into.new ≡ fold put into.old (number_member name.now number ∷ place_member place ∷ []) }
    ensures short { length into.new ≤ length into.old + length name.now + 53 }
{
    into.put_number(name, number);
    put_place(place, into);
}

/// Puts the place of a command of which a refusal speaks.
fn put_place(place: u8, into: &mut Text)
    requires { length into.old + 29 ≤ TEXT_BYTES }
    ensures text { into.new ≡ put into.old (place_member place) }
    ensures short { length into.new ≤ length into.old + 29 }
{
    into.put_number("place", u64::from(place));
}
