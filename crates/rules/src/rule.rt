// A rule bounds what a set of candidates can still gain. (An upper bound for branch and bound.)
ghost use Rattle.std.specs.Prelude.{◌≡◌};
ghost use Rattle.candidates.specs.Members.{members};
ghost use Rattle.rules.specs.Bounds.{Bounds, Candidates, Number, inside as inside_of, number_inside, over};

use candidates::set::CandidateSet;
use sheets::sheet::Sheet;

pub trait Rule {
    // The number that is answered, and that it bounds.
    ghost value: { Self → Number };

    ghost bounds: { (r : Self) → Bounds (value r) };

    // The number for the clique c and the set s of those that may join it; marks that are no candidates don't count.
    // Three parameters, since they are the question.
    fn number<S: Sheet>(&self, sheet: &S, c: CandidateSet, s: CandidateSet) -> u64
        ensures { result ≡ number_inside (value self.now) (S.Sheet.meaning sheet.now) (members c) (members s) };

    // The number where it is above the limit.
    fn above<S: Sheet>(
        &self,
        sheet: &S,
        c: CandidateSet,
        s: CandidateSet,
        limit: u64,
    ) -> Option<u64>
        ensures { result ≡ over limit (number_inside (value self.now) (S.Sheet.meaning sheet.now) (members c) (members s)) }
    {
        let number = self.number(sheet, c, s);
        (number > limit).then_some(number)
    }
}

// What of a set is a candidate of the sheet.
pub(crate) fn inside<S: Sheet>(sheet: &S, set: CandidateSet) -> CandidateSet
    ensures list { members result ≡ inside_of (S.Sheet.meaning sheet.now) (members set) }
    ensures candidates { Candidates (S.Sheet.meaning sheet.now) (members result) }
{
    set.meet(CandidateSet::first(sheet.size()))
}
