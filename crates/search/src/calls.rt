// The calls of a search as values, and what they are answered.
use crate::refusals::{GrantRefusal, HeldRefusal, OfferRefusal};
use sheets::sheet::Points;

// A number of nodes, a list of candidates to be held, a buffer for the held set, or the question for the ceiling.
#[derive(Drop)]
pub enum Call {
    Grant(u64),
    Offer(Vec<usize>),
    Held(Vec<usize>),
    Ceiling,
}

// Nodes done and whether the search is finished; whether the offer was taken; count and weight of the held set, beside
// the buffer as it is then; the ceiling.
#[derive(Drop)]
pub enum Answer {
    Grant(Result<(u64, bool), GrantRefusal>),
    Offer(Result<bool, OfferRefusal>),
    Held(Result<(usize, Points), HeldRefusal>, Vec<usize>),
    Ceiling(u64),
}
