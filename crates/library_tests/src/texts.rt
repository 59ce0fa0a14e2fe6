//! Texts of replies that no line comes to: of refusals for want of room and of memory, and of the greatest numbers.

ghost use Rattle.command_words.specs.Reply.{IsSound};

use command_words::{LineFault, MAX_HISTORY, Refusal, Reply};
use condition_sets::Sums;
use std::alloc::Global;
use std::test::Fail;
use wire_json::{Text, write_reply};

/// The text of a reply, which has to be one line, without its newline.
fn line_of(alloc: Global, reply: &Reply) -> Result<String, Fail>
    requires { IsSound reply.now }
{
    let mut text = Text::new(alloc)?;
    write_reply(reply, &mut text);
    match text.as_slice().strip_suffix(b"\n") {
        Some(line) => Ok(String::from_utf8_lossy(alloc, line)?),
        None => Err("no newline".into()),
    }
}

/// The text of a refusal.
fn refused(alloc: Global, refusal: Refusal, rests: u64) -> Result<String, Fail> {
    if rests > u64::from(MAX_HISTORY) {
        return Err("too long a history".into());
    }
    line_of(alloc, &Reply::Refused { refusal, rests })
}

/// A refusal by two prices and a place, each the greatest.
const FAR_APART: Refusal = Refusal::NotCrossing {
    maker: u128::MAX,
    place: u8::MAX,
    taker: u128::MAX,
};

#[test]
fn refusals_that_no_line_meets(rt: HostRuntime) -> Result<(), Fail> {
    for (refusal, rests, expected) in [
        (
            Refusal::Busy { capacity: 1 },
            0,
            r#"{"capacity":1,"code":36,"error":"Busy","rests":0}"#,
        ),
        (
            Refusal::Busy { capacity: u32::MAX },
            1_000_000,
            r#"{"capacity":4294967295,"code":36,"error":"Busy","rests":1000000}"#,
        ),
        (Refusal::Memory, 0, r#"{"code":37,"error":"Memory"}"#),
        (
            FAR_APART,
            1_000_000,
            r#"{"code":26,"error":"NotCrossing","maker":340282366920938463463374607431768211455,"place":255,"rests":1000000,"taker":340282366920938463463374607431768211455}"#,
        ),
    ] {
        let line = refused(rt.alloc(), refusal, rests)?;
        assert_eq!(rt; line.as_str(), expected);
    }
    Ok(())
}

#[test]
fn want_of_memory_for_a_line(rt: HostRuntime) -> Result<(), Fail> {
    let fault = LineFault::Memory;
    let line = line_of(rt.alloc(), &Reply::Bad { fault })?;
    assert_eq!(rt; line.as_str(), r#"{"code":37,"error":"Memory"}"#);
    Ok(())
}

/// The text of a redemption that pays the greatest sum so many times.
fn redeemed(alloc: Global, sums: usize) -> Result<String, Fail> {
    let paid = Sums::of(vec![in alloc; u64::MAX; sums]?);
    if paid.as_slice().len() > 32 {
        return Err("more sums than sets".into());
    }
    let lsn = 1_000_000;
    line_of(alloc, &Reply::Redeemed { lsn, paid })
}

#[test]
fn the_longest_reply(rt: HostRuntime) -> Result<(), Fail> {
    let none = redeemed(rt.alloc(), 0)?;
    assert_eq!(rt; none.as_str(), r#"{"lsn":1000000,"paid":[]}"#);
    let line = redeemed(rt.alloc(), 32)?;
    let mut expected = String::new(rt.alloc());
    expected.push_str(r#"{"lsn":1000000,"paid":[18446744073709551615"#)?;
    for _ in 1..32 {
        expected.push_str(",18446744073709551615")?;
    }
    expected.push_str("]}")?;
    assert_eq!(rt; line.as_str(), expected.as_str());
    // The newline counts too.
    assert!(rt; line.len() < 1_023);
    Ok(())
}
