//! Tests of what no line of a client reaches, over the exchange itself. It has nothing else: `rt test` runs them.
//!
//! What lines reach is told by the cases of `exchange_cases`, within small limits too.
#![tactic(auto)]

#[cfg(test)]
mod exchanges;

fn main(rt: HostRuntime) {
    let _ = println!(rt; "rt test runs the tests");
}
