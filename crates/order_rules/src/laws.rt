//! Laws of prices and fits: sentences about all limits, each proved once.

ghost use Rattle.std.specs.Prelude.{◌≡◌, ℕ, ◌≤◌, Some};
ghost use Rattle.condition_sets.specs.declared.amount.TheConstants.{MAX_AMOUNT};
ghost use Rattle.order_rules.specs.declared.fits.Fitted.{Fitted};
ghost use Rattle.order_rules.specs.declared.kinds.MatchKind.{MatchKind};
ghost use Rattle.order_rules.specs.Crossing.{OneCrossingGives};
ghost use Rattle.order_rules.specs.Fits.{fit_of};
ghost use Rattle.order_rules.specs.Kinds.{AreSidesOf};
ghost use Rattle.order_rules.specs.Orders.{Terms, IsAmount};
ghost use Rattle.order_rules.specs.Prices.{taking_of};
ghost use Rattle.order_rules.specs.declared.prices.TheConstants.{ONE};

/// For two buyers crossing by prices gives crossing in exact fractions; for the other kinds it is the other way round.
pub fn one_crossing_gives_the_other()
    ensures { (kind : MatchKind) (a b : Terms) → IsAmount a.making → IsAmount a.taking → IsAmount b.making → IsAmount b.taking
        → AreSidesOf kind a.side b.side → OneCrossingGives kind a b }
{}

/// What a fitting maker spends is at most what was left.
pub fn spent_is_left()
    ensures { (kind : MatchKind) (maker : Terms) (left rest : ℕ) (fitted : Fitted) → IsAmount maker.making → IsAmount maker.taking
        → fit_of kind maker left rest ≡ Some fitted → fitted.spent ≤ left }
{}

/// A fill of at most what a limit makes takes at most what the limit takes.
pub fn fill_takes_at_most_the_limit()
    ensures { (limit : Terms) (fill : ℕ) → IsAmount limit.making → fill ≤ limit.making → taking_of limit fill ≤ limit.taking }
{}

/// The number of the public constant.
pub fn constants()
    ensures { ONE ≡ 1_000_000_000_000_000_000 }
{}
