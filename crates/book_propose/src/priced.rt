use book_shelves::Offer;

// A candidate with its effective price for the taker, in parts of `ONE`, so that no price is computed twice.
#[derive(Clone, Copy)]
pub(crate) struct Priced {
    pub(crate) offer: Offer,
    pub(crate) price: u128,
}
