ghost use Rattle.std.specs.Prelude.{◌≡◌, ◌+◌, ◌<◌, ◌≤◌, [], length, false, IfOk, IfErr, OnOk};
ghost use Rattle.outside_faults.specs.Faults.{HasCause};
ghost use Rattle.journal_disk.specs.Drive.{Honestly, IsStored};
ghost use Rattle.journal_disk.specs.Steps.{GoesOn, Leaves};
ghost use Rattle.journal_store.specs.Opening.{IsHead, IsReason, Begins, HasOpened};

use crate::limits::{EMPTY, HEADER_BYTES};
use crate::making::make_empty;
use crate::outcome::BeginFault;
use crate::window::Window;
use journal_disk::Disk;
use outside_faults::Failed;

/// What the first bytes of a disk are.
pub enum Head {
    /// At most 17 bytes, and no more on the disk.
    Short,
    /// More than 17, which begin with the header.
    Header,
    /// More than 17, which don't.
    Other,
}

/// What the first bytes of a disk are: 18, or all where there are fewer.
fn head_of(bytes: &[u8]) -> Head
    ensures { IsHead result bytes.now }
{
    if bytes.len() <= EMPTY.len() {
        Head::Short
    } else if bytes.starts_with(&EMPTY[..HEADER_BYTES]) {
        Head::Header
    } else {
        Head::Other
    }
}

/// Makes what a read gives stay, and reads the first bytes.
fn synced_head<D: Disk>(disk: &mut D) -> Result<Head, Failed>
    ensures cause { HasCause (D.drive disk.old).faults (D.drive disk.new).faults result }
    ensures goes_on { GoesOn (D.drive disk.old) (D.drive disk.new) }
    ensures leaves { Honestly (D.drive disk.old) (Leaves (D.drive disk.old) (D.drive disk.new)) }
    ensures two_moments { (D.drive disk.new).moment ≤ (D.drive disk.old).moment + 2 }
    ensures stored { Honestly (D.drive disk.old) (OnOk result (IsStored (D.drive disk.new))) }
    ensures head { Honestly (D.drive disk.old) (IfOk result (λ head. IsHead head (D.drive disk.old).bytes)) }
{
    disk.sync()?;
    let mut bytes = [0; HEADER_BYTES + 2];
    let len = disk.read(0, &mut bytes)?;
    Ok(head_of(&bytes[..len]))
}

/// Opens the journal of a disk, or makes an empty one on a disk of at most 17 bytes. The window is then behind the
/// header.
pub fn open<D: Disk>(disk: &mut D, window: &mut Window) -> Result<(), BeginFault>
    requires { window.old ≡ record { place = 16; bytes = []; is_last = false } }

    ensures never_falls { (D.drive disk.old).faults ≤ (D.drive disk.new).faults }
    ensures goes_on { GoesOn (D.drive disk.old) (D.drive disk.new) }
    ensures four_moments { (D.drive disk.new).moment ≤ (D.drive disk.old).moment + 4 }
    ensures leaves { Honestly (D.drive disk.old) (17 < length (D.drive disk.old).bytes → Leaves (D.drive disk.old) (D.drive disk.new)) }
    ensures reason { IfErr result (λ why. IsReason why (D.drive disk.old) (D.drive disk.new)) }
    ensures begins { Honestly (D.drive disk.old) (IsStored (D.drive disk.old) → Begins (D.drive disk.old) (D.drive disk.new)) }
    ensures opened { Honestly (D.drive disk.old) (OnOk result (HasOpened (D.drive disk.old) (D.drive disk.new) window.new)) }
    ensures place { window.new.place ≡ 16 }
{
    match synced_head(disk) {
        Ok(Head::Short) => match make_empty(disk) {
            Ok(()) => {
                window.end_with(0);
                Ok(())
            }
            Err(_) => Err(BeginFault::Disk),
        },
        Ok(Head::Header) => Ok(()),
        Ok(Head::Other) => Err(BeginFault::NotJournal),
        Err(_) => Err(BeginFault::Disk),
    }
}
