//! The report on a works' list: what was read, the triples, a way of trying, and the plate that is
//! pressed with it.

#![tactic(auto)]

pub mod report;
