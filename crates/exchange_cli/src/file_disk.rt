ghost use Rattle.std.specs.Prelude.{◌≡◌, ◌≤◌, length, IfOk};
ghost use Rattle.journal_disk.specs.Drive.{told_by_none, none-is_drive};

use journal_disk::Disk;
use outside_faults::{Failed, FaultCount};
use std::fs::{File, Files, OpenOptions};
use std::io;
use std::os::unix::fs::FileExt;

/// The file of this name in the present folder as a disk. It is opened at the first call, made where it is missing,
/// and locked, so that no other process that does so uses it beside this one. It counts each failure, and doesn't
/// tell that it is honest.
#[derive(Drop)]
pub struct FileDisk<'r, R> {
    files: &'r R,
    name: &'r str,
    file: Option<File>,
    faults: FaultCount,
}

impl<'r, R: Files<File = File>> FileDisk<'r, R> {
    /// Nothing is opened yet, and nothing has failed.
    pub fn new(files: &'r R, name: &'r str) -> FileDisk<'r, R>
        ensures { result.faults ≡ 0 }
    {
        FileDisk {
            files,
            name,
            file: None,
            faults: FaultCount::new(),
        }
    }
}

impl<'r, R: Files<File = File>> Disk for FileDisk<'r, R> {
    ghost drive = { λ d. told_by_none d.faults };

    ghost is_drive = { λ d. none-is_drive d.faults };

    fn read(&mut self, at: u64, into: &mut [u8]) -> Result<usize, Failed> {
        let read = match opened(&mut self.file, self.files, self.name) {
            Ok(file) => read_whole(file, at, into),
            Err(error) => Err(error),
        };
        match read {
            Ok(n) => Ok(n),
            Err(_) => Err(self.faults.raise()),
        }
    }

    fn write_at(&mut self, at: u64, bytes: &[u8]) -> Result<(), Failed> {
        let written = match opened(&mut self.file, self.files, self.name) {
            Ok(file) => file.write_all_at(bytes, at),
            Err(error) => Err(error),
        };
        match written {
            Ok(()) => Ok(()),
            Err(_) => Err(self.faults.raise()),
        }
    }

    fn cut(&mut self, len: u64) -> Result<(), Failed> {
        let cut = match opened(&mut self.file, self.files, self.name) {
            Ok(file) => cut(file, len),
            Err(error) => Err(error),
        };
        match cut {
            Ok(()) => Ok(()),
            Err(_) => Err(self.faults.raise()),
        }
    }

    fn sync(&mut self) -> Result<(), Failed> {
        let synced = match opened(&mut self.file, self.files, self.name) {
            Ok(file) => file.sync_data(),
            Err(error) => Err(error),
        };
        match synced {
            Ok(()) => Ok(()),
            Err(_) => Err(self.faults.raise()),
        }
    }
}

/// The file, which is opened where it isn't open yet.
fn opened<'f, R: Files<File = File>>(
    file: &'f mut Option<File>,
    files: &R,
    name: &str,
) -> io::Result<&'f File> {
    if file.is_none() {
        *file = Some(open(files, name)?);
    }
    match file {
        Some(file) => Ok(file),
        None => unreachable!(),
    }
}

/// Opens the file for reading and writing, locks it, and makes its name stay in the folder.
fn open<R: Files<File = File>>(files: &R, name: &str) -> io::Result<File> {
    let file = OpenOptions::new()
        .read(true)
        .write(true)
        .create(true)
        .open(files, name)?;
    if file.try_lock().is_err() {
        return Err(io::Error::from(io::ErrorKind::WouldBlock));
    }
    File::open(files, ".")?.sync_all()?;
    Ok(file)
}

/// Reads bytes from a place on until the piece is full or there are no more.
fn read_whole(file: &File, at: u64, into: &mut [u8]) -> io::Result<usize>
    ensures { IfOk result (λ n. n ≤ length into.old) }
{
    let mut read = 0;
    while read < into.len() {
        let Some(place) = at.checked_add(read as u64) else {
            return Ok(read);
        };
        match file.read_at(&mut into[read..], place) {
            Ok(0) => return Ok(read),
            Ok(n) => read += n,
            Err(error) => return Err(error),
        }
    }
    Ok(read)
}

/// Leaves a front of this length, or all where there is less.
fn cut(file: &File, len: u64) -> io::Result<()> {
    if file.metadata()?.len() > len {
        file.set_len(len)?;
    }
    Ok(())
}

#[cfg(test)]
mod tests {
    use super::*;
    use std::fs;
    use std::test::Fail;

    const NAME: &str = "journal_of_a_test";

    #[test]
    fn keeps_bytes_and_counts_failures(rt: HostRuntime) -> Result<(), Fail> {
        let mut disk = FileDisk::new(&rt, NAME);
        assert!(rt; !fs::exists(&rt, NAME)?);
        let mut piece = [7; 4];
        assert_eq!(rt; disk.read(0, &mut piece), Ok(0));
        assert_eq!(rt; disk.write_at(0, &[1, 2, 3]), Ok(()));
        assert_eq!(rt; disk.write_at(2, &[4, 5]), Ok(()));
        assert_eq!(rt; disk.sync(), Ok(()));
        assert_eq!(rt; disk.read(1, &mut piece), Ok(3));
        assert_eq!(rt; piece, [2, 4, 5, 7]);
        let mut other = FileDisk::new(&rt, NAME);
        assert_eq!(rt; other.sync(), Err(Failed));
        assert_eq!(rt; other.faults.get(), 1);
        assert_eq!(rt; disk.cut(2), Ok(()));
        assert_eq!(rt; disk.cut(9), Ok(()));
        assert_eq!(rt; disk.read(0, &mut piece), Ok(2));
        assert_eq!(rt; disk.write_at(u64::MAX, &[1]), Err(Failed));
        assert_eq!(rt; disk.faults.get(), 1);
        fs::remove_file(&rt, NAME)?;
        Ok(())
    }
}
