// Tests of the book and the queue, over a source that is as small as can be.
#![tactic(auto)]

#[cfg(test)]
mod tests;
pub mod twig;
