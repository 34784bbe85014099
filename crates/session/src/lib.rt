//! A session: it is fed bytes and answers each line that they end, however they are cut.
#![tactic(auto)]

mod answers;
mod books;
mod feeds;
mod session;

pub use session::Session;
