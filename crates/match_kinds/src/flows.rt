//! What goes through the exchange.

ghost use Rattle.std.specs.Prelude.{◌≡◌, ◌*◌, ◌≤◌, length, All, Some, None, IfOk, OnOk, IfErr};
ghost use Rattle.condition_sets.specs.declared.amount.TheConstants.{MAX_AMOUNT};
ghost use Rattle.match_kinds.specs.Matching.{IsMaker, IsPart, flow_of, got_of, refund_of};
ghost use Rattle.match_kinds.specs.Settling.{short_place};
ghost use Rattle.match_kinds.specs.declared.part.TheConstants.{MAX_MAKERS};

use crate::part::{Part, taking_by};
use order_rules::{MatchKind, kind};

// What came in and went out, of what the taker pays and of what it gets.
#[derive(Clone, Copy)]
struct Flows {
    paid_in: u64,
    paid_out: u64,
    taken_in: u64,
    taken_out: u64,
}

// What is left for the taker: its refund, and what it gets before its fee.
#[derive(Clone, Copy)]
pub(crate) struct Left {
    pub(crate) refund: u64,
    pub(crate) got: u64,
}

// What is left behind all makers, or the first place with which more went out than came in.
pub(crate) fn left_over(taker: &Part, makers: &[Part]) -> Result<Left, u8>
    requires few { length makers.now ≤ MAX_MAKERS }
    requires taker { IsPart taker.now }
    requires makers { All (IsMaker taker.now) makers.now }

    ensures refund { IfOk result (λ left. left.refund ≡ refund_of taker.now makers.now) }
    ensures got { IfOk result (λ left. left.got ≡ got_of taker.now makers.now) }
    ensures enough { OnOk result (short_place taker.now makers.now ≡ None) }
    ensures short { IfErr result (λ place. short_place taker.now makers.now ≡ Some place) }
    ensures refund_within { IfOk result (λ left. left.refund ≤ 17 * MAX_AMOUNT) }
    ensures got_within { IfOk result (λ left. left.got ≤ 16 * MAX_AMOUNT) }
{
    // It is in its range, and the taker's fill is within it.
    let _most = taker.limit.making();
    let mut all = Flows {
        paid_in: taker.fill,
        paid_out: 0,
        taken_in: 0,
        taken_out: 0,
    };
    for (index, maker) in makers.iter().enumerate() {
        let more = flow(taker, maker);
        all.paid_in += more.paid_in;
        all.paid_out += more.paid_out;
        all.taken_in += more.taken_in;
        all.taken_out += more.taken_out;
        if all.paid_in < all.paid_out || all.taken_in < all.taken_out {
            return Err(index as u8 + 1);
        }
    }
    Ok(Left {
        refund: all.paid_in - all.paid_out,
        got: all.taken_in - all.taken_out,
    })
}

// What comes in and goes out with one maker.
fn flow(taker: &Part, maker: &Part) -> Flows
    requires maker { IsMaker taker.now maker.now }

    ensures paid_in { result.paid_in ≡ (flow_of taker.now maker.now).paid_in }
    ensures paid_out { result.paid_out ≡ (flow_of taker.now maker.now).paid_out }
    ensures taken_in { result.taken_in ≡ (flow_of taker.now maker.now).taken_in }
    ensures taken_out { result.taken_out ≡ (flow_of taker.now maker.now).taken_out }
    ensures paid_within { (result.paid_in ≤ MAX_AMOUNT) × (result.paid_out ≤ MAX_AMOUNT) }
    ensures taken_within { (result.taken_in ≤ MAX_AMOUNT) × (result.taken_out ≤ MAX_AMOUNT) }
{
    let fill = maker.fill;
    let taking = taking_by(maker);
    match kind(
        taker.limit.side(),
        taker.token,
        maker.limit.side(),
        maker.token,
    ) {
        Some(MatchKind::Complementary) => Flows {
            paid_in: 0,
            paid_out: taking,
            taken_in: fill,
            taken_out: 0,
        },
        Some(MatchKind::Mint) => Flows {
            paid_in: fill,
            paid_out: taking,
            taken_in: taking,
            taken_out: 0,
        },
        Some(MatchKind::Merge) => Flows {
            paid_in: 0,
            paid_out: fill,
            taken_in: fill,
            taken_out: taking,
        },
        None => unreachable!(),
    }
}
