// The question for the held set.
ghost use Rattle.std.specs.Prelude.{◌≡◌};
ghost use Rattle.runs.specs.Calls.{written};
ghost use Rattle.search.specs.Replies.{held_answer};
ghost use Rattle.search.specs.Searching.{state_of};

use crate::refusals::HeldRefusal;
use crate::search::Search;
use rules::rule::Rule;
use sheets::sheet::{Points, Sheet};

impl<S: Sheet, R: Rule> Search<S, R> {
    // Writes the held set upwards into the front of the buffer, and answers how many it has and what it weighs,
    // as a pair that callers take apart at once.
    pub fn held(&self, buffer: &mut [usize]) -> Result<(usize, Points), HeldRefusal>
        ensures { held_answer result buffer.new ≡ written (state_of self.now).held buffer.old }
    {
        let held = self.core.held().ok_or(HeldRefusal::NoneHeld)?;
        let count = held.set.write_to(buffer).ok_or(HeldRefusal::TooShort)?;
        Ok((count, held.points))
    }
}
