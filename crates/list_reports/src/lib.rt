// From the bytes of a block list to its pairing, and the lines that are printed of it.
#![tactic(auto)]

pub mod pairing;
pub mod report;
#[cfg(test)]
mod tests;
