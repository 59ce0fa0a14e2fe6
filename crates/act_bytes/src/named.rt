ghost use Rattle.std.specs.Prelude.{◌≡◌};
ghost use Rattle.act_bytes.specs.Reading.{Gives, next_named};

use crate::fault::ReadFault;
use crate::lists::{key_of, sets_of};
use crate::numbers::{condition_of, u16_of};
use condition_sets::{Bits, ConditionId, Pairs};
use std::alloc::Global;

/// What a split, a merge or a redemption names: sets of a condition, under a parent.
#[derive(Debug, Drop)]
pub(crate) struct Named {
    pub(crate) parent: Pairs,
    pub(crate) condition: ConditionId,
    pub(crate) sets: Bits,
}

/// The parent, the condition and its sets at the front, and the bytes behind them.
#[tactic(auto, unfolding(crate::specs::Reading::next_named))]
pub(crate) fn named_of(alloc: Global, bytes: &[u8]) -> Result<(Named, &[u8]), ReadFault>
    ensures { Gives (λ x. (((x.0.parent, x.0.condition), x.0.sets), x.1.now)) result (next_named bytes.now) }
{
    let (parent, rest) = key_of(alloc, bytes)?;
    let (condition, rest) = u16_of(rest)?;
    let condition = condition_of(condition)?;
    let (sets, rest) = sets_of(alloc, rest)?;
    let parent = Pairs::of(parent);
    let sets = Bits::of(sets);
    let named = Named {
        parent,
        condition,
        sets,
    };
    Ok((named, rest))
}
