//! What the binary kinds compute on patterns, written once over the format: fields, opposite and adder.
#![tactic(auto)]

pub mod adder;
pub mod format;
pub mod patterns;
