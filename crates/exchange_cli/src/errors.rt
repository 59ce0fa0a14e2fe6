//! The texts of an error type that the program doesn't print: it says by a line of its own why a journal isn't opened.

use exchange_top::OpenFault;
use std::test::Fail;

#[test]
fn faults_of_recovery_have_texts(rt: HostRuntime) -> Result<(), Fail> {
    let rows = [
        (OpenFault::Disk, "the disk of the journal failed"),
        (OpenFault::NotJournal, "the disk has no journal"),
        (
            OpenFault::Cut { at: 73, lsn: 2 },
            "the journal breaks off behind 2 acts, at byte 73",
        ),
        (
            OpenFault::NotAct { at: 73, lsn: 2 },
            "the journal has no act behind 2 acts, in the batch at byte 73",
        ),
        (
            OpenFault::Illegal {
                at: 73,
                lsn: 2,
                code: 28,
            },
            "act 2 is refused with 28, in the batch at byte 73",
        ),
        (OpenFault::Memory, "out of memory"),
    ];
    for (fault, text) in rows {
        assert_eq!(rt; format!(in rt.alloc(); "{fault}")?.as_str(), text);
    }
    Ok(())
}
