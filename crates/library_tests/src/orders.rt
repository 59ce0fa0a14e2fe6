//! Prices, kinds, crossing and fits of orders, against values that were worked out by hand.

use condition_sets::MAX_AMOUNT;
use order_rules::{
    Fitted, Limit, MatchKind, ONE, Side, Token, crosses, crosses_exactly, fit, kind, price, taking,
};
use std::test::Fail;

/// The limit of an order.
fn limit(side: Side, making: u64, taking: u64) -> Result<Limit, Fail> {
    match Limit::new(side, making, taking) {
        Some(limit) => Ok(limit),
        None => Err("no limit".into()),
    }
}

#[test]
fn prices(rt: HostRuntime) -> Result<(), Fail> {
    for (side, making, taking, expected) in [
        (Side::Buy, 1, 3, 333_333_333_333_333_333),
        (Side::Buy, 2, 3, 666_666_666_666_666_666),
        (Side::Buy, 3, 2, 1_500_000_000_000_000_000),
        (Side::Sell, 3, 2, 666_666_666_666_666_666),
        (Side::Sell, 1, 2, 2 * ONE),
        (Side::Buy, 1, MAX_AMOUNT, 1_000),
        (Side::Buy, MAX_AMOUNT, 1, ONE * 1_000_000_000_000_000),
        (Side::Buy, MAX_AMOUNT, MAX_AMOUNT, ONE),
    ] {
        let price = price(&limit(side, making, taking)?);
        assert!(rt; price == expected, "{side:?} {making} {taking}");
    }
    Ok(())
}

/// What a fill of an order takes.
fn taken(making: u64, taken: u64, fill: u64) -> Result<u64, Fail> {
    let limit = limit(Side::Sell, making, taken)?;
    Ok(taking(&limit, fill.min(limit.making())))
}

#[test]
fn fills(rt: HostRuntime) -> Result<(), Fail> {
    for (making, taking, fill, expected) in [
        (3, 2, 2, 1),
        (3, 2, 3, 2),
        (3, 2, 0, 0),
        (MAX_AMOUNT, 1, MAX_AMOUNT - 1, 0),
        (MAX_AMOUNT, MAX_AMOUNT, MAX_AMOUNT, MAX_AMOUNT),
    ] {
        assert!(rt;
            taken(making, taking, fill)? == expected,
            "{fill} of {making} for {taking}"
        );
    }
    Ok(())
}

#[test]
fn kinds(rt: HostRuntime) {
    for (a, at, b, bt, expected) in [
        (
            Side::Buy,
            Token::Yes,
            Side::Sell,
            Token::Yes,
            Some(MatchKind::Complementary),
        ),
        (
            Side::Sell,
            Token::No,
            Side::Buy,
            Token::No,
            Some(MatchKind::Complementary),
        ),
        (
            Side::Buy,
            Token::Yes,
            Side::Buy,
            Token::No,
            Some(MatchKind::Mint),
        ),
        (
            Side::Sell,
            Token::No,
            Side::Sell,
            Token::Yes,
            Some(MatchKind::Merge),
        ),
        (Side::Buy, Token::Yes, Side::Sell, Token::No, None),
        (Side::Buy, Token::Yes, Side::Buy, Token::Yes, None),
    ] {
        assert!(rt; kind(a, at, b, bt) == expected, "{a:?} {at:?} {b:?} {bt:?}");
    }
}

/// Whether two orders cross, by their prices and in exact fractions, where the second is for YES or for NO.
fn crossing(
    a: (Side, u64, u64),
    b: (Side, u64, u64),
    of: Token,
) -> Result<Option<(bool, bool)>, Fail> {
    let (a, b) = (limit(a.0, a.1, a.2)?, limit(b.0, b.1, b.2)?);
    match kind(a.side(), Token::Yes, b.side(), of) {
        Some(kind) => Ok(Some((crosses(&a, &b, kind), crosses_exactly(&a, &b, kind)))),
        None => Ok(None),
    }
}

#[test]
fn complements_cross(rt: HostRuntime) -> Result<(), Fail> {
    let less = MAX_AMOUNT - 1;
    for (side, a, b, expected) in [
        (Side::Buy, (1, 3), (2, 3), (false, true)),
        (Side::Buy, (1, 2), (1, 2), (true, true)),
        (Side::Buy, (499, 1_000), (1, 2), (false, false)),
        (Side::Sell, (3, 1), (3, 2), (true, true)),
        (Side::Sell, (3, 2), (6, 3), (false, false)),
        (Side::Sell, (less, 1), (MAX_AMOUNT, less), (true, false)),
    ] {
        let crossing = crossing((side, a.0, a.1), (side, b.0, b.1), Token::No)?;
        assert!(rt; crossing == Some(expected), "{side:?} {a:?} {b:?}");
    }
    Ok(())
}

#[test]
fn a_buyer_and_a_seller_cross(rt: HostRuntime) -> Result<(), Fail> {
    for (buyer, seller, expected) in [
        ((1, 2), (2, 1), (true, true)),
        ((499, 1_000), (2, 1), (false, false)),
        ((333_333_333_333_333, MAX_AMOUNT), (3, 1), (false, false)),
        ((1, MAX_AMOUNT), (MAX_AMOUNT, 1), (true, true)),
    ] {
        let (a, b) = (
            (Side::Buy, buyer.0, buyer.1),
            (Side::Sell, seller.0, seller.1),
        );
        assert!(rt;
            crossing(a, b, Token::Yes)? == Some(expected),
            "{buyer:?} {seller:?}"
        );
        assert!(rt;
            crossing(b, a, Token::Yes)? == Some(expected),
            "{seller:?} {buyer:?}"
        );
    }
    Ok(())
}

/// What fits of a whole maker.
fn fitted(kind: MatchKind, making: u64, taking: u64, left: u64) -> Result<Option<Fitted>, Fail> {
    let side = match kind {
        MatchKind::Merge => Side::Sell,
        _ => Side::Buy,
    };
    let maker = limit(side, making, taking)?;
    if left > MAX_AMOUNT {
        return Err("no amount".into());
    }
    Ok(fit(left, maker.making(), &maker, kind))
}

#[test]
fn makers_fit(rt: HostRuntime) -> Result<(), Fail> {
    for (kind, making, taking, left, expected) in [
        (MatchKind::Complementary, 100, 50, 50, Some((100, 50, 50))),
        (MatchKind::Complementary, 100, 50, 49, Some((98, 49, 49))),
        (MatchKind::Complementary, 3, 1, 0, None),
        (MatchKind::Mint, 60, 100, 40, Some((60, 100, 40))),
        (MatchKind::Mint, 60, 100, 39, Some((58, 96, 38))),
        (MatchKind::Mint, 100, 100, 40, None),
        (
            MatchKind::Mint,
            MAX_AMOUNT - 1,
            MAX_AMOUNT,
            1,
            Some((MAX_AMOUNT - 1, MAX_AMOUNT, 1)),
        ),
        (MatchKind::Merge, 100, 60, 100, Some((100, 60, 100))),
        (MatchKind::Merge, 100, 60, 1, None),
        (MatchKind::Merge, 100, 60, 2, Some((2, 1, 2))),
        (
            MatchKind::Merge,
            MAX_AMOUNT,
            MAX_AMOUNT,
            MAX_AMOUNT,
            Some((MAX_AMOUNT, MAX_AMOUNT, MAX_AMOUNT)),
        ),
    ] {
        let fitted = fitted(kind, making, taking, left)?;
        let numbers = fitted.map(|fitted| (fitted.fill, fitted.taking, fitted.spent));
        assert!(rt; numbers == expected, "{kind:?} {making} {taking} {left}");
    }
    Ok(())
}
