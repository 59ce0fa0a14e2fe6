ghost use Rattle.std.specs.Prelude.{◌≡◌};
ghost use Rattle.ledger_book.specs.Postings.{paid_to, taken_from, minted, burnt, credits, debits};

use crate::posting::Posting;
use collection_keys::Collection;
use condition_sets::AccountId;

// What postings pay to an account's position in a collection.
pub(crate) fn credits(postings: &[Posting], account: AccountId, collection: &Collection) -> u128
    ensures { result ≡ credits postings.now account collection.now }
{
    postings
        .iter()
        .map(|posting| {
            if posting.account == account {
                u128::from(paid_to(posting, collection))
            } else {
                0
            }
        })
        .sum()
}

// What postings take from an account's position in a collection.
pub(crate) fn debits(postings: &[Posting], account: AccountId, collection: &Collection) -> u128
    ensures { result ≡ debits postings.now account collection.now }
{
    postings
        .iter()
        .map(|posting| {
            if posting.account == account {
                u128::from(taken_from(posting, collection))
            } else {
                0
            }
        })
        .sum()
}

// What postings pay to a collection over all accounts.
pub(crate) fn minted(postings: &[Posting], collection: &Collection) -> u128
    ensures { result ≡ minted postings.now collection.now }
{
    postings
        .iter()
        .map(|posting| u128::from(paid_to(posting, collection)))
        .sum()
}

// What postings take from a collection over all accounts.
pub(crate) fn burnt(postings: &[Posting], collection: &Collection) -> u128
    ensures { result ≡ burnt postings.now collection.now }
{
    postings
        .iter()
        .map(|posting| u128::from(taken_from(posting, collection)))
        .sum()
}

// What a posting pays to a collection, whoever holds it.
fn paid_to(posting: &Posting, collection: &Collection) -> u64
    ensures { result ≡ paid_to collection.now posting.now }
{
    if posting.collection == *collection {
        posting.paid
    } else {
        0
    }
}

// What a posting takes from a collection, whoever holds it.
fn taken_from(posting: &Posting, collection: &Collection) -> u64
    ensures { result ≡ taken_from collection.now posting.now }
{
    if posting.collection == *collection {
        posting.taken
    } else {
        0
    }
}
