//! Settling: the outcome of all slots, by the test and passes or, where they don't decide it, by the register.
#![tactic(auto)]

mod adding;
pub mod budget;
pub mod gauge;
mod gauging;
pub mod joins;
pub mod settings;
pub mod settle;
pub mod settled;
mod test;
