// The search for the heaviest set, in grants of nodes.
#![tactic(auto)]

pub mod calls;
pub mod refusals;
pub mod replay;
pub mod search;
