ghost use Rattle.std.specs.Prelude.{◌≡◌, ℕ, ◌+◌, ◌<◌, ◌^◌, ◌↔◌, length, All, Some, Ok, Err, OnOk};
ghost use Rattle.condition_sets.specs.Sets.{IsProper, AreApart, union_of, first_overlap};

use crate::index_set::IndexSet;
use crate::slot_count::SlotCount;

/// What the sets of a partition are together.
#[derive(Clone, Copy, Debug, PartialEq, Eq)]
pub enum Union {
    /// Every slot of the condition.
    Full,
    /// Some of the slots.
    Part(IndexSet),
}

/// Why sets are no partition.
#[derive(Clone, Copy, Debug, PartialEq, Eq)]
pub enum PartitionFault {
    /// There are fewer than two sets.
    TooFew,
    /// The set at this place, the first such, shares a slot with an earlier one.
    Overlap(usize),
}

/// Tells whether sets are a partition: at least two, no two of which share a slot. It takes no memory.
/// (Gnosis Conditional Tokens, developer documentation: partitions.)
pub fn check_partition(sets: &[IndexSet], slots: SlotCount) -> Result<Union, PartitionFault>
    requires { All (IsProper slots) sets.now }

    ensures too_few { (result ≡ Err PartitionFault.TooFew) ↔ (length sets.now < 2) }
    ensures overlap { (place : ℕ) → (result ≡ Err (PartitionFault.Overlap place)) ↔ (first_overlap sets.now ≡ Some place) }

    ensures apart { OnOk result (AreApart sets.now) }
    ensures full { result ≡ Ok Union.Full → union_of sets.now + 1 ≡ 2 ^ slots }
    ensures part { (set : ℕ) → result ≡ Ok (Union.Part set) → (set ≡ union_of sets.now) × IsProper slots set }
{
    if sets.len() < 2 {
        return Err(PartitionFault::TooFew);
    }
    let mut union = 0u32;
    for (place, set) in sets.iter().enumerate() {
        if union & set.bits() != 0 {
            return Err(PartitionFault::Overlap(place));
        }
        union |= set.bits();
    }
    match IndexSet::proper(union, slots) {
        Some(part) => Ok(Union::Part(part)),
        None => Ok(Union::Full),
    }
}
