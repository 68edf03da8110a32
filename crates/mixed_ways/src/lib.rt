//! Ways that a session proposes: one that keeps its list, and one that is of one kind or of another.

#![tactic(auto)]

pub mod kept;
pub mod mixed;
