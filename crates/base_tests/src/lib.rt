//! Tests of the base crates: addresses, the outside, codecs, captures, what a host hears, generated input, linked lists, timers and the sequence lock.
#![tactic(auto)]

#[cfg(test)]
mod addresses;
#[cfg(test)]
mod captures;
#[cfg(test)]
mod discovery;
#[cfg(test)]
mod generated;
#[cfg(test)]
mod hearing;
#[cfg(test)]
mod link_layer;
#[cfg(test)]
mod linked_lists;
#[cfg(test)]
mod outside;
#[cfg(test)]
mod sequence_lock;
#[cfg(test)]
mod timers;
