//! Calls for a program that is not written in Rattle: a static library of them is linked with it.
#![tactic(auto)]

pub mod calls;
mod readings;
mod sums;
