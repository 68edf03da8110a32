//! Fitting one level: the first rotation of a way that fits it, and the slots that it fills.

#![tactic(auto)]

pub mod level;
pub mod slots;
