//! The lines of a session: what a line asks for, and the lines that answer it.
#![tactic(auto)]

pub mod reads;
pub mod words;
pub mod writes;
