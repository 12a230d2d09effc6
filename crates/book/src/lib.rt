// A book of commits: rows found by id, filled from a source on demand.
#![tactic(auto)]

pub mod book;
pub mod types;
