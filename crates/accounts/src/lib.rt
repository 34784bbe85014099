//! Accounts of one kind of number: what every account means, and the account that adds in a register.
#![tactic(auto)]

pub mod account;
pub mod asked;
pub mod fleet;
pub mod readings;
pub mod register_account;
pub mod register_calls;
mod register_entry;
