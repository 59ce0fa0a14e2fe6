//! Runs over the real file, in the folder of the test.

use super::*;
use command_words::ListClock;
use line_link::{MemorySink, MemorySource};
use outside_faults::FailingCalls;
use std::fs;
use std::fs::{File, Files};
use std::process::Abort;
use std::test::Fail;

/// Runs the program on an input over the journal of the present folder, and compares its status and its replies.
fn runs<R: Abort + AllocGlobal + Files<File = File>>(
    rt: &R,
    input: &[u8],
    status: Status,
    replies: &[u8],
) -> Result<(), Fail> {
    let alloc = rt.alloc();
    let mut words = Vec::new(alloc);
    words.push(String::from_str(alloc, "run")?)?;
    let none = FailingCalls::new(Vec::new(alloc));
    let mut source = MemorySource::new(Vec::from_slice(alloc, input)?, 4_096, none);
    let mut sink = MemorySink::new(alloc, 4_096, FailingCalls::new(Vec::new(alloc)));
    let mut clock = ListClock::new(7);
    let disk = FileDisk::new(rt, JOURNAL);
    let ended = run(alloc, &words, &mut source, &mut sink, disk, &mut clock);
    assert_eq!(rt; ended.status, status);
    assert_eq!(rt; sink.as_slice(), replies);
    Ok(())
}

#[test]
fn one_run_goes_on_from_another(rt: HostRuntime) -> Result<(), Fail> {
    let deposit = b"{\"do\":\"deposit\",\"by\":0,\"to\":2,\"amount\":100}\n";
    let vault = b"{\"do\":\"vault\",\"by\":2}\n";
    runs(&rt, deposit, Status::Done, b"{\"lsn\":0}\n")?;
    runs(&rt, deposit, Status::Done, b"{\"lsn\":1}\n")?;
    runs(&rt, vault, Status::Done, b"{\"rests\":2,\"vault\":200}\n")?;
    let held = fs::OpenOptions::new().read(true).open(&rt, JOURNAL)?;
    assert!(rt; held.try_lock().is_ok());
    runs(&rt, vault, Status::DiskFault, b"")?;
    assert!(rt; held.unlock().is_ok());
    runs(&rt, vault, Status::Done, b"{\"rests\":2,\"vault\":200}\n")?;
    fs::remove_file(&rt, JOURNAL)?;
    Ok(())
}
