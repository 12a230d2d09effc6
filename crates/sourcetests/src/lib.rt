// Tests of the sources: bad input of every kind, asked of the plain and of the indexed store.
#![tactic(auto)]

#[cfg(test)]
mod tests;
