// Which of two sets is the earlier in list order.
ghost use Rattle.std.specs.Prelude.{Decides};
ghost use Rattle.candidates.specs.Members.{members};
ghost use Rattle.candidates.specs.Order.{Earlier, StrictTotal};

use crate::set::CandidateSet;

impl CandidateSet {
    // Whether self has the lowest candidate that stands in just one of the two.
    pub fn earlier(self, other: CandidateSet) -> bool
        ensures value { Decides result (Earlier (members self) (members other)) }
        ensures order { StrictTotal }
    {
        // a match, as it shows all three cases; a chain of options would hide one
        match (self.minus(other).lowest(), other.minus(self).lowest()) {
            (Some(mine), Some(theirs)) => mine < theirs,
            (Some(_), None) => true,
            (None, _) => false,
        }
    }
}
