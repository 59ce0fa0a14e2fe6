//! The images that a crash may leave of a disk in memory, against lists that were written by hand.

use crate::memory::disk;
use journal_disk::{Disk, MemoryDisk};
use std::alloc::Global;
use std::test::Fail;

/// The images of now in their order, in hexadecimal digits, each once.
fn images(alloc: Global, disk: &MemoryDisk) -> Result<String, Fail> {
    let mut listed = String::new(alloc);
    for image in disk.images()? {
        let mut digits = String::new(alloc);
        for byte in image.as_slice() {
            let pair = format!(in alloc; "{byte:02x}")?;
            digits.push_str(pair.as_str())?;
        }
        digits.push(' ')?;
        if !listed.as_str().contains(digits.as_str()) {
            listed.push_str(digits.as_str())?;
        }
    }
    Ok(listed)
}

#[test]
fn a_write_inside(rt: HostRuntime) -> Result<(), Fail> {
    let mut disk = disk(rt.alloc(), &[1, 2, 3], &[])?;
    assert_eq!(rt; images(rt.alloc(), &disk)?.as_str(), "010203 ");
    assert!(rt; disk.write_at(1, &[9]).is_ok());
    assert_eq!(rt;
        images(rt.alloc(), &disk)?.as_str(),
        "010203 010903 010003 01ff03 "
    );
    Ok(())
}

#[test]
fn a_write_past_the_end(rt: HostRuntime) -> Result<(), Fail> {
    let mut disk = disk(rt.alloc(), &[1, 2], &[])?;
    assert!(rt; disk.write_at(1, &[8, 9]).is_ok());
    let torn = "0102 0108 0100 01ff 010200 010809 010000 01ffff ";
    assert_eq!(rt; images(rt.alloc(), &disk)?.as_str(), torn);
    assert!(rt; disk.sync().is_ok());
    assert_eq!(rt; images(rt.alloc(), &disk)?.as_str(), "010809 ");
    Ok(())
}

#[test]
fn a_cut_and_a_write(rt: HostRuntime) -> Result<(), Fail> {
    let mut disk = disk(rt.alloc(), &[1, 2, 3], &[])?;
    assert!(rt; disk.cut(2).is_ok());
    assert_eq!(rt; images(rt.alloc(), &disk)?.as_str(), "010203 0102 ");
    assert!(rt; disk.write_at(0, &[9]).is_ok());
    let torn = "010203 090203 000203 ff0203 0102 0902 0002 ff02 ";
    assert_eq!(rt; images(rt.alloc(), &disk)?.as_str(), torn);
    Ok(())
}

#[test]
fn a_failed_write_and_a_failed_sync(rt: HostRuntime) -> Result<(), Fail> {
    let mut disk = disk(rt.alloc(), &[1, 2, 3], &[1, 2])?;
    assert!(rt; disk.write_at(1, &[9]).is_err());
    assert!(rt; disk.sync().is_err());
    assert_eq!(rt;
        images(rt.alloc(), &disk)?.as_str(),
        "010203 010903 010003 01ff03 "
    );
    assert!(rt; disk.sync().is_ok());
    assert_eq!(rt; images(rt.alloc(), &disk)?.as_str(), "010203 ");
    Ok(())
}
