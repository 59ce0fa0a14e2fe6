use collection_keys::Collection;
use condition_sets::AccountId;

/// One entry of the ledger: what is paid to an account's position in a collection, and what is taken from it, in
/// shares; of the root, in collateral units.
#[derive(Clone, Copy, Debug)]
pub struct Posting {
    pub account: AccountId,
    pub collection: Collection,
    pub paid: u64,
    pub taken: u64,
}
