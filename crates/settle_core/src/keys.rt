//! Keys and sets that commands name, and what they stand for.

ghost use Rattle.std.specs.Prelude.{◌≡◌, ◌==◌, ◌+◌, ◌≤◌, ◌^◌, if◌then◌else◌, false, true, length, All, None, Some, is_some, is_none, slice_get, IfSome, IfOk, MatchOption};
ghost use Rattle.std.specs.List.{list_any};
ghost use Rattle.collection_keys.specs.Collections.{part, joined, is_ascending};
ghost use Rattle.collection_keys.specs.declared.collection.TheConstants.{MAX_PAIRS};
ghost use Rattle.condition_sets.specs.Sets.{IsProper, AreApart, union_of};
ghost use Rattle.condition_sets.specs.declared.partition.Union.TheVariants.{Full, Part};
ghost use Rattle.condition_sets.specs.declared.slot_count.TheConstants.{MAX_SLOTS};
ghost use Rattle.settle_core.specs.Keys.{is_unprepared, key_is_unprepared, is_improper, is_improper_of, key_is_improper, is_no_partition, union_in};
ghost use Rattle.settle_core.specs.Refusals.{choice_refusals, partition_refusals};
ghost use Rattle.settle_core.specs.Verdict.{first_some, AnsweredBy};

use collection_keys::{Collection, MAX_PAIRS};
use command_words::Refusal;
use condition_sets::{
    ConditionId, IndexSet, NoMemory, PartitionFault, SlotCount, Union, check_partition,
};
use condition_table::{Conditions, Facts};
use std::alloc::Global;

/// The most pairs of a key to which a condition is joined.
const MAX_PARENT: usize = MAX_PAIRS - 1;

/// A parent and a partition of a condition, as a command names them.
#[derive(Drop)]
pub(crate) struct Partition {
    pub(crate) parent: Collection,
    pub(crate) sets: Vec<IndexSet>,
    pub(crate) union: Union,
}

/// A parent and sets of a condition, as a command names them.
#[derive(Drop)]
pub(crate) struct Choice {
    pub(crate) parent: Collection,
    pub(crate) sets: Vec<IndexSet>,
}

/// The parent and the partition that a command names, or the refusal of them with the lowest number.
pub(crate) fn parted(
    alloc: Global,
    conditions: &Conditions,
    parent: &[(u16, u32)],
    condition: ConditionId,
    sets: &[u32],
) -> Result<Partition, Refusal>
    requires { is_ascending parent.now ≡ true }

    ensures verdict { AnsweredBy (first_some (partition_refusals conditions.now.facts parent.now condition sets.now)) result }
    ensures parent { IfOk result (λ parted. parted.parent ≡ parent.now) }
    ensures sets { IfOk result (λ parted. parted.sets.items ≡ sets.now) }
    ensures union { IfOk result (λ parted. parted.union ≡ union_in conditions.now.facts condition sets.now) }
    ensures apart { IfOk result (λ parted. AreApart parted.sets.items) }
{
    if key_is_unprepared(conditions, parent) || conditions.len() <= condition.get() {
        return Err(Refusal::NoCondition);
    }
    let Some(facts) = conditions.get(condition) else {
        unreachable!()
    };
    if key_is_improper(conditions, parent) || sets_are_improper(&facts, sets) {
        return Err(Refusal::BadSet);
    }
    let parts = index_sets(alloc, &facts, sets)?;
    let Some(union) = union_of(&parts, facts.slots) else {
        return Err(Refusal::BadPartition);
    };
    if has(parent, condition) {
        return Err(Refusal::Held);
    }
    if parent.len() > MAX_PARENT {
        return Err(Refusal::TooDeep);
    }
    Ok(Partition {
        parent: collection_of(conditions, parent),
        sets: parts,
        union,
    })
}

/// The parent and the sets of a condition that a command names, or the refusal of them with the lowest number.
pub(crate) fn chosen(
    alloc: Global,
    conditions: &Conditions,
    parent: &[(u16, u32)],
    condition: ConditionId,
    sets: &[u32],
) -> Result<Choice, Refusal>
    requires { is_ascending parent.now ≡ true }

    ensures verdict { AnsweredBy (first_some (choice_refusals conditions.now.facts parent.now condition sets.now)) result }
    ensures parent { IfOk result (λ chosen. chosen.parent ≡ parent.now) }
    ensures sets { IfOk result (λ chosen. chosen.sets.items ≡ sets.now) }
    ensures proper { IfOk result (λ chosen. MatchOption (slice_get conditions.now.facts condition) ⊥ (λ facts. All (IsProper facts.slots) chosen.sets.items)) }
    ensures slots { IfOk result (λ _. MatchOption (slice_get conditions.now.facts condition) ⊥ (λ facts. facts.slots ≤ MAX_SLOTS)) }
{
    if key_is_unprepared(conditions, parent) || conditions.len() <= condition.get() {
        return Err(Refusal::NoCondition);
    }
    let Some(facts) = conditions.get(condition) else {
        unreachable!()
    };
    // How many numerators a report on it has.
    let _most = facts.slots.get();
    if key_is_improper(conditions, parent) || sets_are_improper(&facts, sets) {
        return Err(Refusal::BadSet);
    }
    if has(parent, condition) {
        return Err(Refusal::Held);
    }
    if parent.len() > MAX_PARENT {
        return Err(Refusal::TooDeep);
    }
    Ok(Choice {
        parent: collection_of(conditions, parent),
        sets: index_sets(alloc, &facts, sets)?,
    })
}

/// Whether a pair of the key names a condition that isn't prepared.
pub(crate) fn key_is_unprepared(conditions: &Conditions, key: &[(u16, u32)]) -> bool
    ensures { result ≡ key_is_unprepared conditions.now.facts key.now }
{
    let prepared = conditions.len();
    key.iter().any(|pair| prepared <= pair.0)
}

/// Whether a pair of the key names a set that isn't proper for its condition.
pub(crate) fn key_is_improper(conditions: &Conditions, key: &[(u16, u32)]) -> bool
    ensures { result ≡ key_is_improper conditions.now.facts key.now }
{
    key.iter()
        .any(|pair| is_improper(conditions, pair.0, pair.1))
}

/// Whether bits are no proper set of a condition, where it is prepared.
fn is_improper(conditions: &Conditions, condition: u16, bits: u32) -> bool
    ensures { result ≡ is_improper conditions.now.facts condition bits }
{
    match conditions.at(condition) {
        Some(facts) => is_improper_of(&facts, bits),
        None => false,
    }
}

fn is_improper_of(facts: &Facts, bits: u32) -> bool
    ensures { result ≡ is_improper_of (Some facts.now) bits }
{
    IndexSet::proper(bits, facts.slots).is_none()
}

/// Whether one of the sets isn't proper for the condition of these facts.
fn sets_are_improper(facts: &Facts, sets: &[u32]) -> bool
    ensures { result ≡ list_any (is_improper_of (Some facts.now)) sets.now }
{
    sets.iter().any(|set| is_improper_of(facts, *set))
}

/// The sets of a condition of these facts.
fn index_sets(alloc: Global, facts: &Facts, sets: &[u32]) -> Result<Vec<IndexSet>, NoMemory>
    requires { list_any (is_improper_of (Some facts.now)) sets.now ≡ false }
    ensures value { IfOk result (λ parts. parts.items ≡ sets.now) }
    ensures proper { IfOk result (λ parts. All (IsProper facts.now.slots) parts.items) }
{
    let mut parts = Vec::new(alloc);
    for set in sets {
        parts.push(index_set(facts, *set))?;
    }
    Ok(parts)
}

fn index_set(facts: &Facts, bits: u32) -> IndexSet
    requires { is_improper_of (Some facts.now) bits ≡ false }
    ensures value { result ≡ bits }
    ensures proper { IsProper facts.now.slots result }
{
    match IndexSet::proper(bits, facts.slots) {
        Some(set) => set,
        None => unreachable!(),
    }
}

/// What sets are together; `None` exactly where they are no partition.
fn union_of(parts: &[IndexSet], slots: SlotCount) -> Option<Union>
    requires { All (IsProper slots) parts.now }
    ensures some { is_some result ≡ true → is_no_partition parts.now ≡ false }
    ensures none { is_none result ≡ true → is_no_partition parts.now ≡ true }
    ensures value { IfSome result (λ union. union ≡ (if union_of parts.now + 1 == 2 ^ slots then Full else Part (union_of parts.now))) }
    ensures apart { IfSome result (λ _. AreApart parts.now) }
{
    match check_partition(parts, slots) {
        Ok(union) => Some(union),
        Err(PartitionFault::TooFew) => None,
        Err(PartitionFault::Overlap(_)) => None,
    }
}

/// Whether a key has a condition.
fn has(key: &[(u16, u32)], condition: ConditionId) -> bool
    ensures { result ≡ is_some (part key.now condition) }
{
    has_number(key, condition.get())
}

fn has_number(key: &[(u16, u32)], number: u16) -> bool
    ensures { result ≡ list_any (λ p. p.0 == number) key.now }
{
    key.iter().any(|pair| pair.0 == number)
}

/// The collection that a key names.
pub(crate) fn collection_of(conditions: &Conditions, key: &[(u16, u32)]) -> Collection
    requires ascending { is_ascending key.now ≡ true }
    requires few { length key.now ≤ MAX_PAIRS }
    requires prepared { key_is_unprepared conditions.now.facts key.now ≡ false }
    requires proper { key_is_improper conditions.now.facts key.now ≡ false }

    ensures { result ≡ key.now }
{
    match key {
        [] => Collection::root(),
        [first, rest @ ..] => join(conditions, &collection_of(conditions, rest), *first),
    }
}

/// A collection with a pair joined.
fn join(conditions: &Conditions, collection: &Collection, pair: (u16, u32)) -> Collection
    requires absent { part collection.now pair.0 ≡ None }
    requires few { length collection.now + 1 ≤ MAX_PAIRS }
    requires prepared { is_unprepared conditions.now.facts pair.0 ≡ false }
    requires proper { is_improper conditions.now.facts pair.0 pair.1 ≡ false }

    ensures { result ≡ joined collection.now pair.0 pair.1 }
{
    let (Some(condition), Some(facts)) = (ConditionId::new(pair.0), conditions.at(pair.0)) else {
        unreachable!()
    };
    let Some(set) = IndexSet::proper(pair.1, facts.slots) else {
        unreachable!()
    };
    match collection.with(condition, set) {
        Ok(joined) => joined,
        Err(_) => unreachable!(),
    }
}
