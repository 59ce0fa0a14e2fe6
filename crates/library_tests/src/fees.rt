//! Fees, against values that were worked out by hand.

use fee_rules::{MAX_RATE, MAX_TOKENS, fee};
use order_rules::{ONE, Side};

/// The fees of a buyer and of a seller.
fn fees(rate: u16, tokens: u64, price: u128) -> (u64, u64) {
    if rate > MAX_RATE || tokens > MAX_TOKENS {
        return (u64::MAX, u64::MAX);
    }
    (
        fee(rate, tokens, price, Side::Buy),
        fee(rate, tokens, price, Side::Sell),
    )
}

#[test]
fn fees_are_taken(rt: HostRuntime) {
    let full = 1_000_000_000_000_000;
    for (rate, tokens, price, expected) in [
        (1_000, 100, 900_000_000_000_000_000, (1, 1)),
        (1_000, 100, 500_000_000_000_000_000, (10, 5)),
        (1_000, 100, 100_000_000_000_000_000, (10, 1)),
        (1_000, 100, ONE, (0, 0)),
        (1_000, 100, ONE + 1, (0, 0)),
        (1_000, 100, 0, (0, 0)),
        (0, 100, 500_000_000_000_000_000, (0, 0)),
        (1, 9_999, 500_000_000_000_000_000, (0, 0)),
        (1, 10_000, 500_000_000_000_000_000, (1, 0)),
        (1_000, full, 1, (full / 10, 0)),
        (
            1_000,
            MAX_TOKENS,
            ONE / 2,
            (MAX_TOKENS / 10, MAX_TOKENS / 20),
        ),
    ] {
        let taken = fees(rate, tokens, price);
        assert!(rt;
            taken == expected,
            "rate {rate}, {tokens} tokens, price {price}"
        );
    }
}
