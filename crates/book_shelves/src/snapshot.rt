ghost use Rattle.std.specs.Prelude.{◌≡◌, ◌<◌, ◌≤◌, [], ◌∷◌, ◌++◌, length, slice_get, All, Some, IfOk, OnOk, OnErr};
ghost use Rattle.book_shelves.specs.Shelves.{IsSnapshot};

use crate::offer::Offer;
use condition_sets::NoMemory;
use std::alloc::Global;
use std::marker::Model;

/// Offers by ascending numbers, each with a rest of at most what its limit makes. Contracts see the list of the offers.
#[derive(Drop)]
pub struct Snapshot {
    offers: Vec<Offer>,
}

impl Model for Snapshot {
    ghost use Rattle.std.specs.Prelude.{List};
    ghost use Rattle.book_shelves.specs.declared.offer.Offer.{Offer};
    ghost use Rattle.book_shelves.specs.Shelves.{IsSnapshot};

    ghost Value = { List Offer };

    ghost view = { λ s. s.offers.items };

    ghost invariant = { λ s. IsSnapshot s.offers.items };
}

impl Snapshot {
    /// A snapshot of no offers. `Err` comes only where memory is wanting.
    pub fn new(alloc: Global) -> Result<Snapshot, NoMemory>
        ensures empty { IfOk result (λ snapshot. snapshot ≡ []) }
    {
        Ok(Snapshot {
            offers: Vec::new(alloc),
        })
    }

    /// Puts an offer last. `Err` comes where memory is wanting; the snapshot is then as it was.
    pub fn push(&mut self, offer: Offer) -> Result<(), NoMemory>
        requires above { All (λ before. before.order < offer.order) self.old }
        requires within { offer.rest ≤ offer.limit.making }

        ensures ok { OnOk result (self.new ≡ self.old ++ offer ∷ []) }
        ensures err { OnErr result (self.new ≡ self.old) }
    {
        self.offers.push(offer)?;
        Ok(())
    }

    /// How many offers there are. It takes no memory.
    pub fn len(&self) -> usize
        ensures value { result ≡ length self.now }
        ensures valid { IsSnapshot self.now }
    {
        self.offers.len()
    }

    /// The offer at a place, from 0. It takes no memory.
    pub fn offer(&self, i: usize) -> Offer
        requires inside { i < length self.now }

        ensures value { slice_get self.now i ≡ Some result }
        ensures within { result.rest ≤ result.limit.making }
        ensures valid { IsSnapshot self.now }
    {
        self.offers[i]
    }
}
