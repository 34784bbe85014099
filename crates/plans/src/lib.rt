//! Plans: texts of dots and brackets that say which slots a pass adds to which.
#![tactic(auto)]

pub mod reads;
pub mod writes;
