//! Runs the exchange over memory on the cases of the present folder, and compares what comes out with what each
//! case wants. What a case says of a single line or of the bytes of an act is compared without a run.
//!
//! A file `NAME.case` has to be met, and a file `NAME.wrong` has to be found wrong, or the comparing would tell
//! nothing. README.md says how a case is written.
#![tactic(auto)]

mod block;
mod checking;
mod comparing;
mod fault;
mod folder;
mod reading;
mod running;
mod sheet;
mod spelling;
mod within;

use folder::check_folder;
use std::process::ExitCode;

fn main(rt: HostRuntime) -> ExitCode {
    match check_folder(&rt) {
        Ok(true) => ExitCode::SUCCESS,
        Ok(false) => ExitCode::FAILURE,
        Err(fault) => {
            let _ = eprintln!(rt; "{fault}");
            ExitCode::FAILURE
        }
    }
}
