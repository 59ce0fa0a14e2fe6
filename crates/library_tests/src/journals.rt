//! Batches of many payloads, more of them than a reader holds at once, and the texts of errors.

use crate::memory::disk;
use journal_disk::MemoryDisk;
use journal_store::{Batch, BeginFault, Journal, MAX_PAYLOADS, Next, NextFault, Reader};
use std::alloc::Global;
use std::test::Fail;

/// A reader of a disk.
fn begun(alloc: Global, disk: MemoryDisk) -> Result<Reader<MemoryDisk>, Fail> {
    match Reader::begin(alloc, disk) {
        Ok(reader) => Ok(reader),
        Err(_) => Err("not begun".into()),
    }
}

/// A full batch, each of whose payloads is so often its number.
fn full(alloc: Global) -> Result<Batch, Fail> {
    let mut batch = Batch::new(alloc)?;
    for number in 0..64u8 {
        if batch.len() < MAX_PAYLOADS {
            batch.push(&[number; 512]);
        }
    }
    Ok(batch)
}

/// A journal of so many full batches.
fn written(alloc: Global, batches: u8) -> Result<Journal<MemoryDisk>, Fail> {
    let mut reader = begun(alloc, disk(alloc, b"", &[])?)?;
    if reader.count() >= 1 << 32 {
        return Err("too many".into());
    }
    match reader.next() {
        Ok(Next::End) => {}
        _ => return Err("no empty journal".into()),
    }
    let mut journal = reader.finish();
    let batch = full(alloc)?;
    for _ in 0..batches {
        if batch.len() == 0 || journal.count() >= 1 << 32 || journal.append(&batch).is_err() {
            return Err("not appended".into());
        }
    }
    Ok(journal)
}

#[test]
fn more_than_a_window(rt: HostRuntime) -> Result<(), Fail> {
    let disk = written(rt.alloc(), 3)?.give_up();
    assert_eq!(rt; disk.as_slice().len(), 17 + 3 * (4 + 64 * 514 + 1));
    let mut reader = begun(rt.alloc(), disk)?;
    for turn in 0..192u64 {
        if reader.count() >= 1 << 32 {
            return Err("too many".into());
        }
        assert!(rt;
            matches!(reader.next(), Ok(Next::Payload)),
            "payload {turn}"
        );
        assert!(rt;
            reader.payload() == [turn as u8 % 64; 512].as_slice(),
            "payload {turn}"
        );
    }
    Ok(())
}

#[test]
fn faults_of_opening_have_texts(rt: HostRuntime) -> Result<(), Fail> {
    let rows = [
        (BeginFault::Disk, "the disk failed"),
        (
            BeginFault::NotJournal,
            "the disk has something other than a journal",
        ),
        (BeginFault::Memory, "out of memory"),
    ];
    for (fault, text) in rows {
        assert_eq!(rt; format!(in rt.alloc(); "{fault}")?.as_str(), text);
    }
    let fault = NextFault::Cut { at: 73 };
    assert_eq!(rt;
        format!(in rt.alloc(); "{fault}")?.as_str(),
        "the journal breaks off at byte 73"
    );
    Ok(())
}
