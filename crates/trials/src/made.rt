// Made tables and sets.
use crate::random::Random;
use candidates::set::CandidateSet;
use std::alloc::{AllocError, Global};

// A made entry: apart in this many of a hundred cases, else points below the limit, or 0 where none is set.
fn made_entry(random: &mut Random, apart: u16, limit: Option<u16>) -> u16 {
    if random.below(100) < apart {
        return 65535;
    }
    limit.map_or(0, |limit| random.below(limit))
}

// (`heap` and `random` stay apart: where memory comes from, and where numbers do.)
pub(crate) fn made_entries(
    heap: Global,
    random: &mut Random,
    n: usize,
) -> Result<Vec<u16>, AllocError> {
    // In some tables everything fits, in some nothing.
    let apart = match random.below(8) {
        0 => 0,
        1 => 100,
        _ => random.below(100),
    };
    let limit = match random.below(4) {
        0 => None,
        1 => Some(3),
        2 => Some(100),
        _ => Some(65535),
    };
    (0..n)
        .flat_map(|v| 0..v)
        .map(|_| made_entry(random, apart, limit))
        .collect(heap)
}

// A made set: each of the first 16 numbers by chance, so that some are no candidates.
pub(crate) fn made_set(random: &mut Random) -> CandidateSet {
    (0..16)
        .filter(|_| random.below(2) == 1)
        .fold(CandidateSet::empty(), |set, v| set.with(v))
}
