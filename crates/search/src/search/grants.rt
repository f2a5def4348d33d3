// The grant of a search.
ghost use Rattle.std.specs.Prelude.{◌≡◌};
ghost use Rattle.runs.specs.Calls.{grant as grant_of, progress};
ghost use Rattle.search.specs.Replies.{grant_answer, replied};
ghost use Rattle.search.specs.Searching.{Kept, state_of};

use crate::refusals::GrantRefusal;
use crate::search::Search;
use frames::search_core::node::node;
use rules::rule::Rule;
use sheets::sheet::Sheet;

impl<S: Sheet, R: Rule> Search<S, R> {
    // Does nodes until k are done or the search is finished, and answers how many.
    fn advance(&mut self, k: u64) -> u64
        ensures nodes { result ≡ (progress (S.Sheet.meaning self.old.sheet) (R.Rule.value self.old.rule) k (state_of self.old)).nodes }
        ensures after { state_of self.new ≡ (progress (S.Sheet.meaning self.old.sheet) (R.Rule.value self.old.rule) k (state_of self.old)).reached }
        ensures same { Kept self.old self.new }
    {
        for done in 0..k {
            if self.core.is_finished() {
                return done;
            }
            node(&self.sheet, &self.rule, &mut self.core);
        }
        k
    }

    // At most k nodes, from 1 to 1,000,000: how many were done, and whether the search is finished, as a pair that callers
    // take apart at once.
    pub fn grant(&mut self, k: u64) -> Result<(u64, bool), GrantRefusal>
        ensures value { replied (grant_answer result) (state_of self.new) ≡ grant_of (S.Sheet.meaning self.old.sheet) (R.Rule.value self.old.rule) (state_of self.old) k }
        ensures same { Kept self.old self.new }
    {
        if !(1..=1_000_000).contains(&k) {
            return Err(GrantRefusal::OutOfRange);
        }
        let nodes = self.advance(k);
        Ok((nodes, self.core.is_finished()))
    }
}
