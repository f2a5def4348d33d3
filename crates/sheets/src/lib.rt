// What a sheet is, what sets of its candidates weigh, and the table make of sheet.
#![tactic(auto)]

pub mod pairing;
pub mod sheet;
pub mod sums;
pub mod table;
