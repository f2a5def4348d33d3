// Writing the block list of a sheet into a lent buffer, and reading back what was written.
#![tactic(auto)]

pub mod copies;
pub mod faults;
mod records;
#[cfg(test)]
mod tests;
pub mod writing;
