ghost use Rattle.std.specs.Prelude.{◌≡◌, ◌≤◌, [], length, All, IfOk, OnOk};
ghost use Rattle.ledger_book.specs.Ledger.{amount_at};
ghost use Rattle.ledger_book.specs.Postings.{IsFunded};
ghost use Rattle.match_kinds.specs.Matching.{IsMaker, IsPart};
ghost use Rattle.match_kinds.specs.Settling.{MatchedBy, fault_of, match_postings, sums_of};
ghost use Rattle.match_kinds.specs.declared.settle.MatchFault.TheVariants.{Memory};
ghost use Rattle.match_kinds.specs.declared.part.TheConstants.{MAX_MAKERS};

use crate::charges::taker_fee;
use crate::fills::stage_fills;
use crate::flows::left_over;
use crate::part::{Part, taking_by};
use crate::proceeds::{stage_fees, stage_proceeds};
use condition_sets::{ConditionId, NoMemory};
use ledger_book::{Ledger, PlanFault, Staged};

/// What a match gives the taker, before and as its fee, in what it gets; and what of its fill comes back to it, in what it
/// pays.
#[derive(Clone, Copy, Debug, PartialEq, Eq)]
pub struct MatchSums {
    pub got: u64,
    pub fee: u64,
    pub refund: u64,
}

/// Why a match isn't planned. Place 0 is the taker, and the makers are 1, 2 and so on.
#[derive(Clone, Copy, Debug, PartialEq, Eq)]
pub enum MatchFault {
    /// The account of the part at `place` has `have` of what it pays, with what the makers before it change, and that is
    /// less than its fill.
    Unfunded { have: u64, place: u8 },
    /// With the maker at `place` more goes out of the exchange than came in.
    Short { place: u8 },
    /// The taker would get `got`, and its limit wants `floor`.
    TooLittle { floor: u64, got: u64 },
    /// Memory was wanting.
    Memory,
}

/// Stages a match of a taker with makers on a market, and answers the taker's sums. Each maker pays its fill and gets what
/// its limit gives for it, less its fee; the taker pays its fill and gets what is left in the exchange of both assets, of
/// what it gets less its fee; account 0 gets all fees. The first of the three faults, in the order in which they are listed,
/// is answered at its first place. (Polymarket CTF Exchange, first published source.)
pub fn plan_match(
    s: &mut Staged,
    l: &Ledger,
    market: ConditionId,
    taker: &Part,
    makers: &[Part],
) -> Result<MatchSums, MatchFault>
    requires new { s.old.postings ≡ [] }
    requires some { 1 ≤ length makers.now }
    requires few { length makers.now ≤ MAX_MAKERS }
    requires taker { IsPart taker.now }
    requires makers { All (IsMaker taker.now) makers.now }

    ensures fault { MatchedBy (fault_of (amount_at l.now) market taker.now makers.now) result }
    ensures postings { OnOk result (s.new.postings ≡ match_postings market taker.now makers.now) }
    ensures sums { IfOk result (λ sums. sums ≡ sums_of taker.now makers.now) }
    ensures vault { s.new.vault ≡ s.old.vault }
    ensures funded { OnOk result (IsFunded (amount_at l.now) s.new.postings) }
{
    match stage_fills(s, l, market, taker, makers) {
        Ok(()) => {}
        Err(PlanFault::Short { have, place }) => return Err(MatchFault::Unfunded { have, place }),
        Err(PlanFault::Memory) => return Err(MatchFault::Memory),
    }
    let left = match left_over(taker, makers) {
        Ok(left) => left,
        Err(place) => return Err(MatchFault::Short { place }),
    };
    let got = left.got;
    let floor = taking_by(taker);
    if got < floor {
        return Err(MatchFault::TooLittle { floor, got });
    }
    let fee = taker_fee(taker, left.refund, got);
    stage_proceeds(s, market, taker, left.refund, got - fee)?;
    stage_fees(s, market, taker, makers, fee)?;
    Ok(MatchSums {
        got,
        fee,
        refund: left.refund,
    })
}

impl From<NoMemory> for MatchFault {
    ghost from_gives = { λ _ fault. fault ≡ Memory };

    fn from(_error: NoMemory) -> MatchFault {
        MatchFault::Memory
    }
}
