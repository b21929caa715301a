// Pairs that are shifted, as tests, in a crate of their own so that the call stays quick to check.
#![tactic(auto)]

#[cfg(test)]
mod bounds;
#[cfg(test)]
mod pairs;
#[cfg(test)]
mod tools;
