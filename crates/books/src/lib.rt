//! The books of two pistes: a ledger of two accounts of one kind with a blade, the visits that it takes, the logbook that tells their answers, and the theorem over every list of visits.
#![tactic(auto)]

pub mod blade;
pub mod calls;
pub mod finished;
pub mod ledger;
pub mod run;
pub mod visit;
pub mod visits;
mod write_off;
