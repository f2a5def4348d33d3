// The exact pairing by trying every clique: slow, and the measure of all that is faster.
#![tactic(auto)]

pub mod frame;
pub mod pairing;
