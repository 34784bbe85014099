//! Layers: accounts that hold another account below them. Each is proved over any account, so every pile of layers is an account.
#![tactic(auto)]

pub mod quota;
pub mod quota_calls;
pub mod staged;
pub mod staged_calls;
mod staging;
mod tray;
