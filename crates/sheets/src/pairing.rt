// A set of candidates and its points.
use crate::sheet::Points;
use candidates::set::CandidateSet;

#[derive(Clone, Copy)]
pub struct Pairing {
    pub set: CandidateSet,
    pub points: Points,
}
