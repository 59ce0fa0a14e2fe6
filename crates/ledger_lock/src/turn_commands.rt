//! The commands of a turn.

ghost use Rattle.std.specs.Prelude.{◌≡◌, ◌≤◌, length, sum, take, IfOk};
ghost use Rattle.condition_sets.specs.declared.amount.TheConstants.{MAX_AMOUNT};
ghost use Rattle.settle_core.specs.Crossings.{in_its_place, match_of, shortened};

use book_propose::MatchTerms;
use command_words::Command;
use condition_sets::{ListOf, NoMemory};
use std::alloc::Global;

// The match that is proposed.
pub(crate) fn match_of(alloc: Global, terms: &MatchTerms) -> Result<Command, NoMemory>
    ensures { IfOk result (λ command. command ≡ match_of terms.now) }
{
    Ok(Command::Match {
        taker: terms.taker,
        fill: terms.fill,
        makers: terms.makers.copy(alloc)?,
    })
}

// What is done in place of a match of which the order at a place isn't paid for.
pub(crate) fn in_its_place(
    alloc: Global,
    terms: &MatchTerms,
    place: u8,
) -> Result<Command, NoMemory>
    requires some { 1 ≤ length terms.now.makers }
    requires spent { sum terms.now.spent ≤ MAX_AMOUNT }

    ensures { IfOk result (λ command. command ≡ in_its_place place terms.now) }
{
    match place {
        0 => Ok(Command::Lapse { order: terms.taker }),
        1 => Ok(Command::Lapse {
            order: terms.makers.as_slice()[0].0,
        }),
        _ => shortened(alloc, terms, usize::from(place) - 1),
    }
}

// The match with so many makers, the first ones.
fn shortened(alloc: Global, terms: &MatchTerms, count: usize) -> Result<Command, NoMemory>
    requires { sum terms.now.spent ≤ MAX_AMOUNT }

    ensures { IfOk result (λ command. command ≡ shortened count terms.now) }
{
    let makers = first_of(terms.makers.as_slice(), count);
    let spent = first_of(terms.spent.as_slice(), count);
    Ok(Command::Match {
        taker: terms.taker,
        fill: sum_of(spent),
        makers: ListOf::of(Vec::from_slice(alloc, makers)?),
    })
}

// So many of some items, the first ones; all where there are fewer.
fn first_of<T>(items: &[T], count: usize) -> &[T]
    ensures { result.now ≡ take count items.now }
{
    if count < items.len() {
        &items[..count]
    } else {
        items
    }
}

// The sum of some amounts.
fn sum_of(amounts: &[u64]) -> u64
    requires { sum amounts.now ≤ MAX_AMOUNT }

    ensures { result ≡ sum amounts.now }
{
    let mut total = 0;
    for amount in amounts {
        total += *amount;
    }
    total
}
