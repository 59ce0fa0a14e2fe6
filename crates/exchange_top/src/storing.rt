//! Storing the acts of a history in its journal.

ghost use Rattle.std.specs.Prelude.{◌≡◌, ◌⊎◌, ℕ, ◌+◌, ◌^◌, ◌<◌, ◌≤◌, List, [], ◌∷◌, ◌++◌, length, take, min, true, false, All, OnOk, OnErr};
ghost use Rattle.command_words.specs.Command.{may_be_act};
ghost use Rattle.command_words.specs.declared.act.Act.{Act};
ghost use Rattle.journal_disk.specs.Steps.{GoesOn};
ghost use Rattle.outside_faults.specs.Faults.{Rose};
ghost use Rattle.exchange_top.specs.Holds.{SpellAll, HoldsFront, HasStored, IsFront};

use act_bytes::{MAX_ACT, write_act};
use command_words::Act;
use journal_disk::Disk;
use journal_store::{Batch, DiskFault, Journal, MAX_PAYLOADS};
use ledger_lock::House;

/// Stores the acts of a house that its journal hasn't, in batches of at most 64. At each moment since the call
/// began each image holds a front of the history, no shorter than the journal had it.
pub(crate) fn store_new<D: Disk>(
    house: &House,
    journal: &mut Journal<D>,
    batch: &mut Batch,
) -> Result<(), DiskFault>
    requires at_least { journal.old.count ≤ length house.now.history }
    requires sound { journal.old.broken ≡ false }

    ensures ok { (before : List Act) → IsFront before house.now.history → HasStored D.drive before journal.old
        → OnOk result (HasStored D.drive house.now.history journal.new) }
    ensures image { (before : List Act) (image : List ℕ) → IsFront before house.now.history → HasStored D.drive before journal.old
        → (D.drive journal.new.disk).image image → HoldsFront (length before) house.now.history image }
    ensures since { (before : List Act) (moment : ℕ) (image : List ℕ) → IsFront before house.now.history → HasStored D.drive before journal.old
        → moment ≤ (D.drive journal.old.disk).moment → (D.drive journal.new.disk).image_since moment image
        → (D.drive journal.old.disk).image_since moment image ⊎ HoldsFront (length before) house.now.history image }

    ensures count { OnOk result (journal.new.count ≡ length house.now.history) }
    ensures sound { OnOk result (journal.new.broken ≡ false) }
    ensures cause { OnErr result (Rose (D.drive journal.old.disk).faults (D.drive journal.new.disk).faults) }
    ensures never_falls { (D.drive journal.old.disk).faults ≤ (D.drive journal.new.disk).faults }
    ensures goes_on { GoesOn (D.drive journal.old.disk) (D.drive journal.new.disk) }
    ensures grows { OnErr result (journal.old.count < length house.now.history) }
{
    let acts = house.exchange().history();
    'batches: while journal.count() < acts.len() as u64 {
        store_some(acts, journal, batch)?;
    }
    Ok(())
}

/// Stores the next acts of a history whose front the journal has, as many as a batch takes. It takes no memory.
fn store_some<D: Disk>(
    history: &[Act],
    journal: &mut Journal<D>,
    batch: &mut Batch,
) -> Result<(), DiskFault>
    requires acts { All (λ act. may_be_act act.command ≡ true) history.now }
    requires within { length history.now < 2 ^ 32 }
    requires some { journal.old.count < length history.now }
    requires sound { journal.old.broken ≡ false }

    ensures ok { HasStored D.drive (take journal.old.count history.now) journal.old → OnOk result (HasStored D.drive (take journal.new.count history.now) journal.new) }
    ensures image { (image : List ℕ) → HasStored D.drive (take journal.old.count history.now) journal.old
        → (D.drive journal.new.disk).image image → HoldsFront journal.old.count history.now image }
    ensures since { (moment : ℕ) (image : List ℕ) → HasStored D.drive (take journal.old.count history.now) journal.old
        → moment ≤ (D.drive journal.old.disk).moment → (D.drive journal.new.disk).image_since moment image
        → (D.drive journal.old.disk).image_since moment image ⊎ HoldsFront journal.old.count history.now image }

    ensures count { OnOk result (journal.new.count ≡ min (journal.old.count + MAX_PAYLOADS) (length history.now)) }
    ensures sound { OnOk result (journal.new.broken ≡ false) }
    ensures cause { OnErr result (Rose (D.drive journal.old.disk).faults (D.drive journal.new.disk).faults) }
    ensures never_falls { (D.drive journal.old.disk).faults ≤ (D.drive journal.new.disk).faults }
    ensures goes_on { GoesOn (D.drive journal.old.disk) (D.drive journal.new.disk) }
{
    let from = journal.count() as usize;
    let to = history.len().min(from + MAX_PAYLOADS);
    spell_all(&history[from..to], batch);
    journal.append(batch)
}

/// Makes a batch of the spellings of acts. It takes no memory.
fn spell_all(acts: &[Act], batch: &mut Batch)
    requires acts { All (λ act. may_be_act act.command ≡ true) acts.now }
    requires room { length acts.now ≤ MAX_PAYLOADS }
    ensures { SpellAll batch.new acts.now }
{
    batch.clear();
    for act in acts {
        put(act, batch);
    }
}

/// Puts the spelling of an act last in a batch.
fn put(act: &Act, batch: &mut Batch)
    requires act { may_be_act act.now.command ≡ true }
    requires room { length batch.old < MAX_PAYLOADS }
    ensures { (acts : List Act) → SpellAll batch.old acts → SpellAll batch.new (acts ++ act.now ∷ []) }
{
    let mut spelling = [0; MAX_ACT];
    let len = write_act(act, &mut spelling);
    batch.push(&spelling[..len]);
}
