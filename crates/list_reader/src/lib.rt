// Reading a block list: the questions put to it, and the sheet that it is.
#![tactic(auto)]

pub mod asking;
mod records;
pub mod sheet;
#[cfg(test)]
mod tests;
