//! Texts of lines, words, numbers and hexadecimal bytes, and prefix codes: definitions and their laws.
#![tactic(auto)]

pub mod codes;
pub mod laws;
