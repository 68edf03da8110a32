//! A pressing, the making of one plate: six calls over lists that the caller lends.

#![tactic(auto)]

pub mod answer;
pub mod calls;
mod entering;
pub mod lists;
pub mod press;
pub mod stage;
mod working;
