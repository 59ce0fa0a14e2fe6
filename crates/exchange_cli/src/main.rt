//! The program: the words after its name, standard input, standard output, a file for the journal and the machine's clock,
//! given to `run`.
#![tactic(auto)]

mod clock;
mod file_disk;
mod input;
mod output;

use clock::MachineClock;
use exchange_top::run;
use file_disk::FileDisk;
use input::Input;
use line_link::Status;
use output::Output;
use std::alloc::Global;
use std::env::Env;
use std::process::ExitCode;
use std::{env, io};

/// The file of the journal, in the present folder.
const JOURNAL: &str = "exchange.journal";

/// The words after the program's name.
fn words(rt: &(impl Env + AllocGlobal)) -> io::Result<Vec<String>> {
    let mut args = env::args(rt)?;
    let _name = args.next();
    let words = args.collect(rt.alloc())?;
    Ok(words)
}

/// What the program ends with where its words can't be had: they are no text, or memory was wanting.
fn without_words(error: &io::Error) -> Status {
    if error.kind() == io::ErrorKind::OutOfMemory {
        Status::Memory
    } else {
        Status::Words
    }
}

fn main(rt: HostRuntime) -> ExitCode {
    let status = match words(&rt) {
        Ok(words) => {
            let mut source = Input::new(rt.stdin());
            let mut sink = Output::new(rt.stdout());
            let disk = FileDisk::new(&rt, JOURNAL);
            let mut clock = MachineClock::new(&rt);
            run(rt.alloc(), &words, &mut source, &mut sink, disk, &mut clock).status
        }
        Err(error) => without_words(&error),
    };
    ExitCode::from(status.number())
}

#[cfg(test)]
mod errors;
#[cfg(test)]
mod tests;
