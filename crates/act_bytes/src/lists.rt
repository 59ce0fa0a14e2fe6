ghost use Rattle.std.specs.Prelude.{◌≡◌, List};
ghost use Rattle.std.specs.Int.{w32};
ghost use Rattle.act_bytes.specs.Reading.{Gives, next_number, next_pair, next_fill, next_items, next_key, next_sets, next_fills};

use crate::fault::ReadFault;
use crate::numbers::{u8_of, u16_of, u32_of, u64_of};
use condition_sets::OrderId;
use std::alloc::Global;

/// The pair of a key in the first six bytes, and the bytes behind it.
fn pair_of(bytes: &[u8]) -> Result<((u16, u32), &[u8]), ReadFault>
    ensures { Gives (λ x. (x.0, x.1.now)) result (next_pair bytes.now) }
{
    let (condition, rest) = u16_of(bytes)?;
    let (bits, rest) = u32_of(rest)?;
    Ok(((condition, bits), rest))
}

/// The order and the fill of a maker in the first twelve bytes, and the bytes behind them.
fn fill_of(bytes: &[u8]) -> Result<((u32, u64), &[u8]), ReadFault>
    ensures { Gives (λ x. (x.0, x.1.now)) result (next_fill bytes.now) }
{
    let (order, rest) = u32_of(bytes)?;
    let (fill, rest) = u64_of(rest)?;
    Ok(((order, fill), rest))
}

/// So many pairs, and the bytes behind them.
fn pairs_of(alloc: Global, count: u8, bytes: &[u8]) -> Result<(Vec<(u16, u32)>, &[u8]), ReadFault>
    ensures { Gives (λ x. (x.0.items, x.1.now)) result (next_items next_pair count bytes.now) }
{
    let mut pairs = Vec::new(alloc);
    let mut rest = bytes;
    for _ in 0..count {
        let (pair, after) = pair_of(rest)?;
        pairs.push(pair)?;
        rest = after;
    }
    Ok((pairs, rest))
}

/// So many sets, and the bytes behind them.
fn bits_of(alloc: Global, count: u8, bytes: &[u8]) -> Result<(Vec<u32>, &[u8]), ReadFault>
    ensures { Gives (λ x. (x.0.items, x.1.now)) result (next_items (next_number w32) count bytes.now) }
{
    let mut sets = Vec::new(alloc);
    let mut rest = bytes;
    for _ in 0..count {
        let (set, after) = u32_of(rest)?;
        sets.push(set)?;
        rest = after;
    }
    Ok((sets, rest))
}

/// So many makers, and the bytes behind them.
fn makers_of(
    alloc: Global,
    count: u8,
    bytes: &[u8],
) -> Result<(Vec<(OrderId, u64)>, &[u8]), ReadFault>
    ensures { Gives (λ x. (x.0.items, x.1.now)) result (next_items next_fill count bytes.now) }
{
    let mut makers = Vec::new(alloc);
    let mut rest = bytes;
    for _ in 0..count {
        let (fill, after) = fill_of(rest)?;
        let order = OrderId(fill.0);
        makers.push((order, fill.1))?;
        rest = after;
    }
    Ok((makers, rest))
}

/// The key at the front, and the bytes behind it.
#[tactic(auto, unfolding(crate::specs::Reading::next_key))]
pub(crate) fn key_of(alloc: Global, bytes: &[u8]) -> Result<(Vec<(u16, u32)>, &[u8]), ReadFault>
    ensures { Gives (λ x. (x.0.items, x.1.now)) result (next_key bytes.now) }
{
    let (count, rest) = u8_of(bytes)?;
    pairs_of(alloc, count, rest)
}

/// The list of sets or of numerators at the front, and the bytes behind it.
#[tactic(auto, unfolding(crate::specs::Reading::next_sets))]
pub(crate) fn sets_of(alloc: Global, bytes: &[u8]) -> Result<(Vec<u32>, &[u8]), ReadFault>
    ensures { Gives (λ x. (x.0.items, x.1.now)) result (next_sets bytes.now) }
{
    let (count, rest) = u8_of(bytes)?;
    bits_of(alloc, count, rest)
}

/// The list of makers at the front, and the bytes behind it.
#[tactic(auto, unfolding(crate::specs::Reading::next_fills))]
pub(crate) fn fills_of(
    alloc: Global,
    bytes: &[u8],
) -> Result<(Vec<(OrderId, u64)>, &[u8]), ReadFault>
    ensures { Gives (λ x. (x.0.items, x.1.now)) result (next_fills bytes.now) }
{
    let (count, rest) = u8_of(bytes)?;
    makers_of(alloc, count, rest)
}
