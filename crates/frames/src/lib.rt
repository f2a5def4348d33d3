// The frames of a search: their stack, what the search holds beside it, and what one node does.
#![tactic(auto)]

pub mod frame;
pub mod search_core;
pub mod stack;
