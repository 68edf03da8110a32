//! Replays a session of calls to a pressing from text: each call is answered with a line.

#![tactic(auto)]

pub mod reply;
mod said;
mod session;
mod text;
pub mod uncalled;

pub use text::replay;
