ghost use Rattle.std.specs.Prelude.{◌≡◌, ℕ, ◌*◌, ◌/◌, ◌≤◌, IfSome, min};
ghost use Rattle.condition_sets.specs.declared.amount.TheConstants.{MAX_AMOUNT};
ghost use Rattle.order_rules.specs.Fits.{fit_of, if_fitted};

use crate::kinds::MatchKind;
use crate::limit::Limit;
use crate::prices::taking;

/// What of a maker's order fits. Each number is at least 1.
#[derive(Clone, Copy, Debug, PartialEq, Eq)]
pub struct Fitted {
    /// What the maker pays: cash of a buyer, tokens of a seller.
    pub fill: u64,
    /// What the maker gets for it, before any fee: tokens of a buyer, cash of a seller.
    pub taking: u64,
    /// What of the taker's making is spent on it: cash of a buyer, tokens of a seller.
    pub spent: u64,
}

/// How much of a maker's `rest`, in what the maker pays, fits where `left` of the taker's making is left: the most that
/// `left` pays for. `None` exactly where the fill, what it takes or what is spent on it would be 0, and where a maker
/// of a mint pays as much cash as it takes tokens, or more.
pub fn fit(left: u64, rest: u64, maker: &Limit, kind: MatchKind) -> Option<Fitted>
    requires left { left ≤ MAX_AMOUNT }
    requires rest { rest ≤ maker.now.making }
    ensures value { result ≡ fit_of kind maker.now left rest }
    ensures within { IfSome result (λ f. f.spent ≤ left) }
{
    match kind {
        MatchKind::Complementary => {
            let fill = most_fill(rest, left, maker.making(), maker.taking());
            let taken = taking(maker, fill);
            checked_fit(fill, taken, taken)
        }
        MatchKind::Mint => {
            if maker.taking() <= maker.making() {
                return None;
            }
            // The taker pays what the maker's cash lacks of a unit for each pair.
            let fill = most_fill(rest, left, maker.making(), maker.taking() - maker.making());
            let taken = taking(maker, fill);
            checked_fit(fill, taken, taken - fill)
        }
        MatchKind::Merge => {
            let fill = rest.min(left);
            checked_fit(fill, taking(maker, fill), fill)
        }
    }
}

// The most of the rest that `left` pays for, where `making` of it costs `cost`.
fn most_fill(rest: u64, left: u64, making: u64, cost: u64) -> u64
    requires left { left ≤ MAX_AMOUNT }
    requires making { making ≤ MAX_AMOUNT }
    requires cost { 1 ≤ cost }
    ensures { result ≡ min rest (left * making / cost) }
{
    let paid = u128::from(left) * u128::from(making) / u128::from(cost);
    u128::from(rest).min(paid) as u64
}

// The fit of these numbers, where each is at least 1.
fn checked_fit(fill: u64, taking: u64, spent: u64) -> Option<Fitted>
    ensures { result ≡ if_fitted (record { fill = fill; taking = taking; spent = spent }) }
{
    if fill >= 1 && taking >= 1 && spent >= 1 {
        Some(Fitted {
            fill,
            taking,
            spent,
        })
    } else {
        None
    }
}
