// A queue by date, for any value, over places that the caller hands over.
#![tactic(auto)]

pub mod entry;
mod heap;
pub mod queue;
