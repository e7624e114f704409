//! Tests of the table: waiting packets, the machine of an entry, journals, their fold, and the bucket.
#![tactic(auto)]

#[cfg(test)]
mod buckets;
#[cfg(test)]
mod entry_machine;
#[cfg(test)]
mod folds;
#[cfg(test)]
mod journals;
#[cfg(test)]
mod rows;
#[cfg(test)]
mod waiting_queue;
#[cfg(test)]
mod worked;
