//! The report on a works' list of names and settings: the triples, a way of trying, and whether two
//! names clash.

#![tactic(auto)]

pub mod report;
