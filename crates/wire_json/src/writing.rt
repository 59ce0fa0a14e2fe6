ghost use Rattle.std.specs.Prelude.{◌≡◌, ◌+◌, ◌≤◌, ◌<◌, [], length, fold};
ghost use Rattle.command_words.specs.declared.ranges.TheConstants.{MAX_SETS};
ghost use Rattle.command_words.specs.declared.reply.Reply.TheVariants.{Prepared, EventMade, Redeemed, Converted, Matched, Crossed, Ordered};
ghost use Rattle.command_words.specs.Reply.{IsSound};
ghost use Rattle.wire_json.specs.Members.{put};
ghost use Rattle.wire_json.specs.ReplyText.{reply_members, text_of};
ghost use Rattle.wire_json.specs.declared.text.TheConstants.{TEXT_BYTES};

mod names;
mod pairs;
mod refusals;

use crate::text::Text;
use crate::writing::names::fault_name;
use crate::writing::pairs::{put_named, put_two};
use crate::writing::refusals::put_refusal;
use command_words::Reply;
use condition_sets::{ConditionId, EventId, Sums};

/// Makes the text of a reply: one JSON object without spaces, with its members in ascending order of their names, and a
/// newline. It takes no memory.
#[tactic(auto, unfolding(crate::specs::ReplyText::text_of))]
pub fn write_reply(reply: &Reply, into: &mut Text)
    requires { IsSound reply.now }
    ensures text { into.new ≡ text_of reply.now }
    ensures short { length into.new < TEXT_BYTES }
{
    into.clear();
    put_reply(reply, into);
    into.end();
}

/// Puts the members of a reply.
fn put_reply(reply: &Reply, into: &mut Text)
    requires sound { IsSound reply.now }
    requires empty { into.old ≡ [] }
    ensures text { into.new ≡ fold put [] (reply_members reply.now) }
    ensures short { length into.new + 2 < TEXT_BYTES }
{
    match reply {
        Reply::Done { lsn } => into.put_number("lsn", *lsn),
        Reply::Prepared { condition, lsn } => put_prepared(*condition, *lsn, into),
        Reply::EventMade { event, first, lsn } => put_event(*event, *first, *lsn, into),
        Reply::Redeemed { lsn, paid } => put_redeemed(*lsn, paid, into),
        Reply::Converted { lsn, out, paid } => put_converted(*lsn, *out, *paid, into),
        Reply::Placed { lsn, order } => put_two("lsn", *lsn, "order", u64::from(order.get()), into),
        Reply::Bumped { lsn, nonce } => put_two("lsn", *lsn, "nonce", *nonce, into),
        Reply::Matched {
            fee,
            got,
            lsn,
            refund,
        } => put_matched(*fee, *got, *lsn, *refund, into),
        Reply::Crossed {
            acts,
            lsn,
            more,
            stop,
        } => put_crossed(*acts, *lsn, *more, *stop, into),
        Reply::Balanced { amount, rests } => put_two("amount", *amount, "rests", *rests, into),
        Reply::Ordered {
            filled,
            live,
            rests,
        } => put_ordered(*filled, *live, *rests, into),
        Reply::Vaulted { rests, vault } => put_two("rests", *rests, "vault", *vault, into),
        Reply::Refused { refusal, rests } => put_refusal(refusal, *rests, into),
        Reply::Bad { fault } => put_named(fault.code(), fault_name(fault), into),
    }
}

fn put_prepared(condition: ConditionId, lsn: u64, into: &mut Text)
    requires { into.old ≡ [] }
    ensures text { into.new ≡ fold put [] (reply_members (Prepared condition lsn)) }
    ensures short { length into.new ≤ 100 }
{
    put_two("condition", u64::from(condition.get()), "lsn", lsn, into);
}

fn put_event(event: EventId, first: ConditionId, lsn: u64, into: &mut Text)
    requires { into.old ≡ [] }
    ensures text { into.new ≡ fold put [] (reply_members (EventMade event first lsn)) }
    ensures short { length into.new ≤ 100 }
{
    into.put_number("event", u64::from(event.get()));
    into.put_number("first", u64::from(first.get()));
    into.put_number("lsn", lsn);
}

fn put_redeemed(lsn: u64, paid: &Sums, into: &mut Text)
    requires few { length paid.now ≤ MAX_SETS }
    requires empty { into.old ≡ [] }
    ensures text { into.new ≡ fold put [] (reply_members (Redeemed lsn paid.now)) }
    ensures short { length into.new ≤ 800 }
{
    into.put_number("lsn", lsn);
    into.put_numbers("paid", paid.as_slice());
}

fn put_converted(lsn: u64, out: u64, paid: u64, into: &mut Text)
    requires { into.old ≡ [] }
    ensures text { into.new ≡ fold put [] (reply_members (Converted lsn out paid)) }
    ensures short { length into.new ≤ 100 }
{
    into.put_number("lsn", lsn);
    put_two("out", out, "paid", paid, into);
}

fn put_matched(fee: u64, got: u64, lsn: u64, refund: u64, into: &mut Text)
    requires { into.old ≡ [] }
    ensures text { into.new ≡ fold put [] (reply_members (Matched fee got lsn refund)) }
    ensures short { length into.new ≤ 200 }
{
    put_two("fee", fee, "got", got, into);
    put_two("lsn", lsn, "refund", refund, into);
}

fn put_crossed(acts: u64, lsn: u64, more: bool, stop: u8, into: &mut Text)
    requires { into.old ≡ [] }
    ensures text { into.new ≡ fold put [] (reply_members (Crossed acts lsn more stop)) }
    ensures short { length into.new ≤ 200 }
{
    put_two("acts", acts, "lsn", lsn, into);
    into.put_truth("more", more);
    into.put_number("stop", u64::from(stop));
}

fn put_ordered(filled: u64, live: bool, rests: u64, into: &mut Text)
    requires { into.old ≡ [] }
    ensures text { into.new ≡ fold put [] (reply_members (Ordered filled live rests)) }
    ensures short { length into.new ≤ 100 }
{
    into.put_number("filled", filled);
    into.put_truth("live", live);
    into.put_number("rests", rests);
}
