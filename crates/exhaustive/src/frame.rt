// A clique, and the candidates that may still be added to it. A type of its own: the measure of the search shares no code
// with it.
ghost use Rattle.exhaustive.specs.Branches.{Branched};

use candidates::set::CandidateSet;
use sheets::sheet::Sheet;

#[derive(Clone, Copy)]
pub(crate) struct Frame {
    pub(crate) clique: CandidateSet,
    pub(crate) rest: CandidateSet,
}

impl Frame {
    // The frames of those cliques that have v, and of those that have not.
    pub(crate) fn branch<S: Sheet>(self, sheet: &S, v: usize) -> (Frame, Frame)
        ensures { Branched (S.Sheet.meaning sheet.now) v self result.0 result.1 }
    {
        let clique = self.clique;
        let rest = self.rest.without(v);
        let with = Frame {
            clique: clique.with(v),
            rest: rest.meet(sheet.fitting(v)),
        };
        (with, Frame { clique, rest })
    }
}
