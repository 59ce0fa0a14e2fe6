//! Tests of what no line of a client reaches, over the libraries below the exchange. It has nothing else: `rt test` runs
//! them.
//!
//! What lines reach is told by the cases of `exchange_cases`. Here public calls that no request makes succeed once,
//! and the images that a disk lists and the texts that no line comes to are compared with examples that were written by hand.
#![tactic(auto)]

#[cfg(test)]
mod collections;
#[cfg(test)]
mod disks;
#[cfg(test)]
mod fees;
#[cfg(test)]
mod journals;
#[cfg(test)]
mod ledgers;
#[cfg(test)]
mod lines;
#[cfg(test)]
mod memory;
#[cfg(test)]
mod orders;
#[cfg(test)]
mod texts;
#[cfg(test)]
mod trial;

fn main(rt: HostRuntime) {
    let _ = println!(rt; "rt test runs the tests");
}
