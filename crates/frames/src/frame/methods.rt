// What becomes of a frame.
ghost use Rattle.std.specs.Prelude.{◌≡◌};
ghost use Rattle.candidates.specs.Members.{members};
ghost use Rattle.frames.specs.Branches.{child, lowered};
ghost use Rattle.frames.specs.Shown.{shown};

use crate::frame::Frame;
use candidates::set::CandidateSet;

impl Frame {
    // v leaves the rest, and the mark falls to the bound. What is answered is the frame of the cliques that have v.
    pub(crate) fn branch(&mut self, v: usize, fitting: CandidateSet, bound: u64) -> Frame
        ensures left { shown self.new ≡ lowered v bound (shown self.old) }
        ensures above { shown result ≡ child v (members fitting) bound (shown self.old) }
    {
        self.mark = self.mark.min(bound);
        self.rest = self.rest.without(v);
        Frame {
            clique: self.clique.with(v),
            rest: self.rest.meet(fitting),
            mark: self.mark,
        }
    }
}
