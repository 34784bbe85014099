//! Kinds of number: what every kind tells and obeys, the kind count and the two binary kinds.
#![tactic(auto)]

pub mod binary_kinds;
pub mod count;
pub mod kind;
mod range;
pub mod zero;
