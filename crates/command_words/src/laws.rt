//! Laws of the plain values: the number of each public constant.

ghost use Rattle.std.specs.Prelude.{◌≡◌, ℕ, ◌^◌};
ghost use Rattle.command_words.specs.declared.act.TheConstants.{MAX_HISTORY};
ghost use Rattle.command_words.specs.declared.ranges.TheConstants.{MAX_NUMBER, MAX_SETS, MAX_KEY, MAX_PAYOUT, MIN_QUESTIONS, MAX_QUESTIONS, MAX_MAKERS, MAX_EVENT_FEE, MAX_ORDER_FEE};

/// The number of each public constant.
pub fn constants()
    ensures history { MAX_HISTORY ≡ 1_000_000 }
    ensures number { MAX_NUMBER ≡ 10 ^ 15 }
    ensures sets { MAX_SETS ≡ 32 }
    ensures key { MAX_KEY ≡ 32 }
    ensures payout { MAX_PAYOUT ≡ 1_000_000 }
    ensures fewest_questions { MIN_QUESTIONS ≡ 2 }
    ensures questions { MAX_QUESTIONS ≡ 32 }
    ensures makers { MAX_MAKERS ≡ 16 }
    ensures event_fee { MAX_EVENT_FEE ≡ 10_000 }
    ensures order_fee { MAX_ORDER_FEE ≡ 1_000 }
{}
