//! Which collections get a name, and the numbering of them.

ghost use Rattle.std.specs.Prelude.{◌≡◌, ◌+◌, ◌≤◌, ◌++◌, length, take, not, IfOk, OnOk};
ghost use Rattle.std.specs.List.{prefix_len};
ghost use Rattle.std.specs.Ordering.{is_lt};
ghost use Rattle.std.specs.Map.{keys_of};
ghost use Rattle.collection_keys.specs.Collections.{Pairs};
ghost use Rattle.collection_keys.specs.Comparing.{collection_cmp};
ghost use Rattle.ledger_book.specs.Ledger.{supply_in};
ghost use Rattle.ledger_book.specs.Naming.{is_new, new_names, AreFresh};

use crate::moved::{credits, debits};
use crate::posting::Posting;
use collection_keys::Collection;
use condition_sets::NoMemory;
use indexmap::IndexMap;
use std::alloc::Global;

// The collections that the postings name, ascending.
pub(crate) fn find_new(
    alloc: Global,
    supplies: &IndexMap<Collection, u64>,
    postings: &[Posting],
) -> Result<Vec<Collection>, NoMemory>
    ensures { IfOk result (λ coming. coming.items ≡ new_names (keys_of supplies.now.entries) postings.now) }
{
    let mut coming = Vec::new(alloc);
    for posting in postings {
        if is_new(&coming, supplies, postings, posting) {
            let place = place_of(&coming, &posting.collection);
            coming.insert(place, posting.collection)?;
        }
    }
    Ok(coming)
}

// Whether a posting's collection is to be put among those that come.
fn is_new(
    coming: &[Collection],
    supplies: &IndexMap<Collection, u64>,
    postings: &[Posting],
    posting: &Posting,
) -> bool
    ensures { result ≡ is_new (keys_of supplies.now.entries) postings.now coming.now posting.now }
{
    let paid = credits(postings, posting.account, &posting.collection);
    let taken = debits(postings, posting.account, &posting.collection);
    if paid == taken {
        return false;
    }
    if supplies.contains_key(&posting.collection) {
        return false;
    }
    !coming.contains(&posting.collection)
}

// How many collections stand before this one's place.
fn place_of(coming: &[Collection], collection: &Collection) -> usize
    ensures { result ≡ prefix_len (λ j. not (is_lt (collection_cmp collection.now j))) coming.now }
{
    coming
        .iter()
        .take_while(|other| !collection.cmp(other).is_lt())
        .count()
}

// Gives each of these a number, in their order, behind those that have one.
pub(crate) fn number_all(
    supplies: &mut IndexMap<Collection, u64>,
    coming: &[Collection],
) -> Result<(), NoMemory>
    requires { AreFresh (keys_of supplies.old.entries) coming.now }

    ensures front { take (length supplies.old.entries) supplies.new.entries ≡ supplies.old.entries }
    ensures longer { length supplies.old.entries ≤ length supplies.new.entries }
    ensures same { (k : Pairs) → supply_in supplies.new.entries k ≡ supply_in supplies.old.entries k }
    ensures ok { OnOk result (keys_of supplies.new.entries ≡ keys_of supplies.old.entries ++ coming.now) }
{
    for collection in coming {
        supplies.insert(*collection, 0)?;
    }
    Ok(())
}
