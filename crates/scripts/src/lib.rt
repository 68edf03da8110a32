//! Scripts: calls one after another on one pressing and one set of lists.

#![tactic(auto)]

pub mod replaying;
pub mod script;
