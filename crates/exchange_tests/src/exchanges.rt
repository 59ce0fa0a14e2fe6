//! Exchanges by those of their own calls that no line comes to: names, a replay, and plans.

ghost use Rattle.std.specs.Prelude.{◌≤◌};
ghost use Rattle.condition_sets.specs.declared.amount.TheConstants.{MAX_AMOUNT};
ghost use Rattle.settle_core.specs.Legal.{IsPlannable};

use command_words::Command;
use condition_sets::AccountId;
use ledger_book::Ledger;
use settle_core::{Exchange, Limits, ReplayFault};
use std::alloc::Global;
use std::test::Fail;
use wire_json::{Request, read_line};

/// The request that a line is.
fn request(alloc: Global, line: &str) -> Result<Request, Fail> {
    match read_line(alloc, line.as_bytes()) {
        Ok(request) => Ok(request),
        Err(_) => Err("no request".into()),
    }
}

/// An exchange of which these requests, each at moment 7, are the acts.
fn after(alloc: Global, lines: &[&str]) -> Result<Exchange, Fail> {
    let mut exchange = Exchange::new(alloc, Limits::standard())?;
    for line in lines {
        act(alloc, &mut exchange, line)?;
    }
    Ok(exchange)
}

/// Makes a request an act.
fn act(alloc: Global, exchange: &mut Exchange, line: &str) -> Result<(), Fail> {
    let request = request(alloc, line)?;
    if request.command.makes_act() && request.command.in_ranges() {
        exchange.submit(request.account, &request.command, 7)?;
        Ok(())
    } else {
        Err("no request that makes an act".into())
    }
}

/// A ledger's vault and number of entries, and each name with its supply.
fn told(alloc: Global, ledger: &Ledger) -> Result<String, Fail> {
    let mut told = format!(in alloc; "vault {}, entries {}:", ledger.vault(), ledger.entries())?;
    for number in 0..ledger.names() {
        let name = ledger.name(number);
        told.push_str(" [")?;
        for place in 0..name.len() {
            let (condition, set) = name.pair(place);
            let pair = format!(in alloc; "({},{})", condition.get(), set.bits())?;
            told.push_str(pair.as_str())?;
        }
        let supply = format!(in alloc; "]={}", ledger.supply(&name))?;
        told.push_str(supply.as_str())?;
    }
    Ok(told)
}

/// Cash that is parted by condition 0 and then by 1, and in the other order.
const PARTED: [&str; 7] = [
    r#"{"do":"prepare","by":2,"oracle":3,"question":7,"slots":2}"#,
    r#"{"do":"prepare","by":2,"oracle":3,"question":8,"slots":2}"#,
    r#"{"do":"deposit","by":0,"to":2,"amount":20}"#,
    r#"{"do":"split","by":2,"parent":[],"condition":0,"sets":[1,2],"amount":10}"#,
    r#"{"do":"split","by":2,"parent":[[0,1]],"condition":1,"sets":[1,2],"amount":10}"#,
    r#"{"do":"split","by":2,"parent":[],"condition":1,"sets":[1,2],"amount":10}"#,
    r#"{"do":"split","by":2,"parent":[[1,1]],"condition":0,"sets":[1,2],"amount":10}"#,
];

#[test]
fn names_in_the_order_of_acts(rt: HostRuntime) -> Result<(), Fail> {
    let exchange = after(rt.alloc(), &PARTED)?;
    let told = told(rt.alloc(), exchange.ledger())?;
    assert_eq!(rt;
        told.as_str(),
        "vault 20, entries 5: []=0 [(0,1)]=0 [(0,2)]=10 [(0,1)(1,1)]=20 [(0,1)(1,2)]=10 [(1,1)]=0 [(1,2)]=10 [(0,2)(1,1)]=10"
    );
    Ok(())
}

/// A deposit, a condition and a split.
const FIRST_TRADE: [&str; 3] = [
    r#"{"do":"deposit","by":0,"to":2,"amount":100}"#,
    r#"{"do":"prepare","by":2,"oracle":3,"question":7,"slots":2}"#,
    r#"{"do":"split","by":2,"parent":[],"condition":0,"sets":[1,2],"amount":60}"#,
];

/// What a replay of a history comes to where there may be so many entries and acts: how many acts it took, or the number of
/// the refused one with the refusal's.
fn replayed(
    alloc: Global,
    exchange: &Exchange,
    entries: u32,
    history: u32,
) -> Result<(u64, u8), Fail> {
    let limits = Limits::small(1, 1, 1, entries, history).ok_or("no limits")?;
    match Exchange::replay(alloc, limits, exchange.history()) {
        Ok(exchange) => Ok((exchange.history().len() as u64, 0)),
        Err(ReplayFault::Illegal { lsn, code }) => Ok((lsn, code)),
        Err(ReplayFault::Memory) => Err("no memory".into()),
    }
}

#[test]
fn replays(rt: HostRuntime) -> Result<(), Fail> {
    let exchange = after(rt.alloc(), &FIRST_TRADE)?;
    for (entries, history, expected) in [
        (3, 3, (3, 0)),
        (3, 2, (2, 35)),
        (2, 2, (2, 34)),
        (3, 1, (1, 35)),
    ] {
        let replayed = replayed(rt.alloc(), &exchange, entries, history)?;
        assert!(rt; replayed == expected, "{entries} {history}");
    }
    Ok(())
}

/// A deposit for account 2.
fn deposit(amount: u64) -> Command
    requires some { 1 ≤ amount }
    requires within { amount ≤ MAX_AMOUNT }

    ensures { IsPlannable result }
{
    Command::Deposit {
        to: AccountId(2),
        amount,
    }
}

/// What a plan of a deposit of 100 comes to behind one of 7 that is dropped: the reply, the copy of its act, and how many
/// acts there are at the end.
fn planned(alloc: Global) -> Result<String, Fail> {
    let mut exchange = Exchange::new(alloc, Limits::standard())?;
    exchange.plan(AccountId(0), &deposit(7), 7)?;
    let mut plan = exchange.plan(AccountId(0), &deposit(100), 8)?;
    let copy = plan.take_copy();
    let reply = exchange.apply(plan);
    let acts = exchange.end();
    Ok(format!(in alloc; "{reply:?} {copy:?} {}", acts.as_slice().len())?)
}

#[test]
fn a_plan_is_dropped_and_another_carried_out(rt: HostRuntime) -> Result<(), Fail> {
    let planned = planned(rt.alloc())?;
    assert_eq!(rt;
        planned.as_str(),
        "Done { lsn: 0 } Act { moment: 8, account: AccountId(0), command: Deposit { to: AccountId(2), amount: 100 } } 1"
    );
    Ok(())
}
