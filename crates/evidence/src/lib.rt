// Evidence on meters and flats, and the sheet that it makes.
#![tactic(auto)]

pub mod fault;
pub mod records;
pub mod sheet;
#[cfg(test)]
mod tests;
