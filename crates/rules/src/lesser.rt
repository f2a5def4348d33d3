// The lesser of two rules.
ghost use Rattle.rules.specs.Lesser.{lesser, lesser-bounds};

use crate::rule::Rule;
use candidates::set::CandidateSet;
use sheets::sheet::Sheet;

#[derive(Drop)]
pub struct Lesser<A, B>(pub A, pub B);

impl<A: Rule, B: Rule> Rule for Lesser<A, B> {
    ghost value = { λ r. lesser (A.Rule.value r.0) (B.Rule.value r.1) };

    ghost bounds = { λ r. lesser-bounds (A.Rule.value r.0) (B.Rule.value r.1) (A.Rule.bounds r.0) (B.Rule.bounds r.1) };

    fn number<S: Sheet>(&self, sheet: &S, c: CandidateSet, s: CandidateSet) -> u64 {
        let first: u64 = self.0.number(sheet, c, s);
        first.min(self.1.number(sheet, c, s))
    }

    // Where the first is not above the limit, the second isn't asked.
    fn above<S: Sheet>(
        &self,
        sheet: &S,
        c: CandidateSet,
        s: CandidateSet,
        limit: u64,
    ) -> Option<u64> {
        let first: u64 = self.0.above(sheet, c, s, limit)?;
        let second = self.1.above(sheet, c, s, limit)?;
        Some(first.min(second))
    }
}
