//! What shares are worth at an outcome, and what each kind of step does to it.
//!
//! `specs/` has the definitions, over plain lists of facts and postings; [`laws`] has one law for each kind of step.
#![tactic(auto)]

pub mod laws;
