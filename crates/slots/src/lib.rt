//! Slots: numbers that wait to be added, and the pass that adds them by a plan and loses nothing.
#![tactic(auto)]

pub mod asked;
pub mod moves;
pub mod pass;
