ghost use Rattle.std.specs.Prelude.{◌≡◌, ◌*◌, ◌/◌, ◌<◌, ◌≤◌, length, sum};
ghost use Rattle.condition_sets.specs.declared.slot_count.TheConstants.{MAX_SLOTS};
ghost use Rattle.condition_table.specs.Shares.{numerators_in};

use condition_sets::IndexSet;

// The part of an amount that a set's numerators are of all, rounded down.
pub(crate) fn share_of(numerators: &[u32], set: IndexSet, amount: u64) -> u64
    requires some { 0 < sum numerators.now }
    requires slots { length numerators.now ≤ MAX_SLOTS }

    ensures value { result ≡ (amount * numerators_in numerators.now set) / sum numerators.now }
    ensures within { result ≤ amount }
{
    let all: u64 = numerators.iter().map(|n| u64::from(*n)).sum();
    (u128::from(amount) * u128::from(sum_in(numerators, set)) / u128::from(all)) as u64
}

// The sum of the numerators of the slots that are in a set.
fn sum_in(numerators: &[u32], set: IndexSet) -> u64
    requires slots { length numerators.now ≤ MAX_SLOTS }

    ensures value { result ≡ numerators_in numerators.now set }
    ensures within { result ≤ sum numerators.now }
{
    let bits = set.bits();
    let mut sum = 0;
    for (slot, numerator) in numerators.iter().enumerate() {
        if bits >> slot & 1 == 1 {
            sum += u64::from(*numerator);
        }
    }
    sum
}
