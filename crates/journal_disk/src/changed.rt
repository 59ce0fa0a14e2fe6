//! Bytes with a change carried out.

ghost use Rattle.std.specs.Prelude.{◌≡◌, ◌+◌, ◌≤◌, ◌++◌, length, take, drop, IfOk};
ghost use Rattle.journal_disk.specs.Images.{overlaid};

use condition_sets::NoMemory;
use std::alloc::Global;

/// The bytes with others written over them at a place.
pub fn overlaid(alloc: Global, old: &[u8], at: u64, written: &[u8]) -> Result<Vec<u8>, NoMemory>
    ensures { IfOk result (λ bytes. bytes.items ≡ overlaid at written.now old.now) }
{
    let at = at as usize;
    let Some(end) = at.checked_add(written.len()) else {
        return Err(NoMemory);
    };
    let mut bytes = Vec::from_slice(alloc, old)?;
    if bytes.len() < end {
        bytes.resize(end, 0)?;
    }
    put(&mut bytes, at, written);
    Ok(bytes)
}

/// Writes bytes over those at a place.
fn put(bytes: &mut [u8], at: usize, written: &[u8])
    requires { at + length written.now ≤ length bytes.old }
    ensures { bytes.new ≡ take at bytes.old ++ written.now ++ drop (at + length written.now) bytes.old }
{
    bytes[at..at + written.len()].copy_from_slice(written);
}

/// The first bytes, so many or all.
pub fn front(bytes: &[u8], len: u64) -> &[u8]
    ensures { result.now ≡ take len bytes.now }
{
    let len = bytes.len().min(len as usize);
    &bytes[..len]
}
