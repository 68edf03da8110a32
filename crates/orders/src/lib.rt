//! The two orders that heaps are kept in: of waiting vertices, and of spelled names.

#![tactic(auto)]

pub mod spelled;
pub mod waiting;
