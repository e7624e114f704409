//! Tests of scripts, reports and the whole replay.
#![tactic(auto)]

#[cfg(test)]
mod calls;
#[cfg(test)]
mod captures;
#[cfg(test)]
mod cases;
#[cfg(test)]
mod command;
#[cfg(test)]
mod command_words;
#[cfg(test)]
mod fates_of_scripts;
#[cfg(test)]
mod replays;
#[cfg(test)]
mod reports;
#[cfg(test)]
mod run_parts;
#[cfg(test)]
mod script_language;
#[cfg(test)]
mod scripts;
#[cfg(test)]
mod two_buckets;
