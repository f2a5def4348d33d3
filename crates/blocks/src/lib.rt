// Block lists: what a block is, what is asked of it, and why a list is refused.
#![tactic(auto)]

pub mod bytes;
pub mod checks;
pub mod faults;
