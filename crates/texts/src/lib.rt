// Tables of numbers written as text: decimal numbers with white space between them, the first of them the table's size.
#![tactic(auto)]

pub mod faults;
mod numbers;
pub mod tables;
#[cfg(test)]
mod tests;
