//! Equality, order and hash of collections: those of the slices of their pairs, so that a collection is the key of a map.

ghost use Rattle.std.specs.Prelude.{◌≡◌, ◌↔◌, IsTrue, Some, refl};
ghost use Rattle.std.specs.declared.cmp.Ordering.TheVariants.{Equal};
ghost use Rattle.std.specs.Cmp.{partial_equiv_from_equiv, partial_order_from_agreeing_total};
ghost use Rattle.collection_keys.specs.Comparing.{same_collection, collection_cmp, fed_collection, collection_equiv, collection_total, collection_ties, collection_fed};

use crate::collection::Collection;
use std::cmp::Ordering;
use std::hash::{Hash, Hasher};

impl PartialEq for Collection {
    ghost eq = { same_collection };

    ghost laws = { partial_equiv_from_equiv collection_equiv };

    fn eq(&self, other: &Collection) -> bool
        ensures value { result ≡ same_collection self.now other.now }
        ensures same { IsTrue result ↔ (self.now ≡ other.now) }
    {
        self.as_slice() == other.as_slice()
    }
}

impl Eq for Collection {
    ghost laws = { collection_equiv };
}

impl PartialOrd for Collection {
    ghost partial_cmp = { λ j k. Some (collection_cmp j k) };

    ghost laws = { partial_order_from_agreeing_total collection_cmp collection_total (λ j k. refl) collection_ties };

    fn partial_cmp(&self, other: &Collection) -> Option<Ordering> {
        Some(self.cmp(other))
    }
}

impl Ord for Collection {
    ghost cmp = { collection_cmp };

    ghost total = { collection_total };

    ghost matches_partial_cmp = { λ j k. refl };

    ghost matches_eq = { collection_ties };

    fn cmp(&self, other: &Collection) -> Ordering
        ensures value { result ≡ collection_cmp self.now other.now }
        ensures tied { (result ≡ Equal) ↔ (self.now ≡ other.now) }
    {
        self.as_slice().cmp(&other.as_slice())
    }
}

impl Hash for Collection {
    ghost hash_input = { fed_collection };

    ghost respects_eq = { collection_fed };

    fn hash<H: Hasher>(&self, state: &mut H) {
        self.as_slice().hash(state);
    }
}
