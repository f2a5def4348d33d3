// What a search finds in a number of grants, and the lines that are printed of it.
#![tactic(auto)]

pub mod found;
pub mod listed;
#[cfg(test)]
mod tests;
