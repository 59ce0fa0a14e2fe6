ghost use Rattle.std.specs.Prelude.{◌≡◌, ◌<◌, length, None};
ghost use Rattle.collection_keys.specs.Collections.{part, joined};
ghost use Rattle.collection_keys.specs.declared.collection.TheConstants.{MAX_PAIRS};
ghost use Rattle.split_merge.specs.Splitting.{whole_of};

use collection_keys::Collection;
use condition_sets::{ConditionId, IndexSet, Union};

/// The most sets that are split into or merged.
pub const MAX_PARTS: usize = 32;

// The parent with the condition and one of its sets.
pub(crate) fn part_of(parent: &Collection, c: ConditionId, set: IndexSet) -> Collection
    requires free { part parent.now c ≡ None }
    requires shallow { length parent.now < MAX_PAIRS }

    ensures { result ≡ joined parent.now c set }
{
    let Ok(joined) = parent.with(c, set) else {
        unreachable!()
    };
    joined
}

// The parent itself, or the parent with the condition and the union of the sets.
pub(crate) fn whole(parent: &Collection, c: ConditionId, union: &Union) -> Collection
    requires free { part parent.now c ≡ None }
    requires shallow { length parent.now < MAX_PAIRS }

    ensures { result ≡ whole_of union.now parent.now c }
{
    match union {
        Union::Full => *parent,
        Union::Part(set) => part_of(parent, c, *set),
    }
}
