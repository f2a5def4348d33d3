// The pairing of a table that is written as text, and the lines that are printed of it.
#![tactic(auto)]

pub mod pairing;
pub mod refusal;
pub mod report;
#[cfg(test)]
mod tests;
