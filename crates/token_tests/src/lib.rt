//! Tests of the tokens: what participants that run at once hold of a counter, of a bucket's history and of a cached header.
#![tactic(auto)]

#[cfg(test)]
mod cells;
#[cfg(test)]
mod census;
#[cfg(test)]
mod forms;
#[cfg(test)]
mod stamps;
