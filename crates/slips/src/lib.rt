//! The account that keeps its entries in 64 slots of its own.
#![tactic(auto)]

mod lodging;
mod settling;
pub mod slips;
pub mod slips_calls;
