// A clique, those that may still be added to it, and a mark that nothing so made outweighs. (An open subproblem.)
pub(crate) mod methods;

use candidates::set::CandidateSet;

#[derive(Clone, Copy)]
pub struct Frame {
    pub(crate) clique: CandidateSet,
    pub(crate) rest: CandidateSet,
    pub(crate) mark: u64,
}
