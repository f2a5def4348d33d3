// Sets of candidates: 256 yes-or-no marks, read as an ascending list of numbers.
#![tactic(auto)]

pub mod cursor;
pub mod earlier;
pub mod listing;
pub mod set;
