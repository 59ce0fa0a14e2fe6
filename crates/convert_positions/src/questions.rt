ghost use Rattle.std.specs.Prelude.{◌≡◌, ◌==◌, ◌<◌, length, slice_get, Some};
ghost use Rattle.std.specs.Int.{bit_at};
ghost use Rattle.collection_keys.specs.Collections.{root, joined};
ghost use Rattle.convert_positions.specs.Converting.{yes_of, no_of};
ghost use Rattle.convert_positions.specs.Questions.{conditions_in};

use collection_keys::Collection;
use condition_sets::{ConditionId, EventId, IndexSet, SlotCount};
use event_table::Events;

// The condition of one of an event's questions.
pub(crate) fn condition_at(e: &Events, event: EventId, place: u8) -> ConditionId
    requires { place < length (conditions_in e.now.events event) }
    ensures { slice_get (conditions_in e.now.events event) place ≡ Some result }
{
    let Some(condition) = e.question(event, place) else {
        unreachable!()
    };
    condition
}

// Whether the question at a place is in a set.
pub(crate) fn is_chosen(set: u32, place: u8) -> bool
    requires { place < 32 }
    ensures { result ≡ (bit_at set place == 1) }
{
    set >> place & 1 == 1
}

// The shares that a question comes out YES.
pub(crate) fn yes_of(c: ConditionId) -> Collection
    ensures { result ≡ yes_of c }
{
    share_of(c, 1)
}

// The shares that a question comes out NO.
pub(crate) fn no_of(c: ConditionId) -> Collection
    ensures { result ≡ no_of c }
{
    share_of(c, 2)
}

// The shares of one set of a question's condition.
fn share_of(c: ConditionId, bits: u32) -> Collection
    requires some { 0 < bits }
    requires not_both { bits < 3 }

    ensures { result ≡ joined root c bits }
{
    let Some(slots) = SlotCount::new(2) else {
        unreachable!()
    };
    let Some(set) = IndexSet::proper(bits, slots) else {
        unreachable!()
    };
    let Ok(share) = Collection::root().with(c, set) else {
        unreachable!()
    };
    share
}
