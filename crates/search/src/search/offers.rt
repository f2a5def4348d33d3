// The offer to a search.
ghost use Rattle.std.specs.Prelude.{◌≡◌, [], Some, None, Ok, Err};
ghost use Rattle.candidates.specs.Members.{members};
ghost use Rattle.runs.specs.Calls.{first_no, offer as offer_of, offer_questions};
ghost use Rattle.search.specs.Offers.{first_unfit};
ghost use Rattle.search.specs.Refusals.{offer_refused};
ghost use Rattle.search.specs.Replies.{offer_answer, replied};
ghost use Rattle.search.specs.Searching.{Kept, state_of};

use crate::refusals::OfferRefusal;
use crate::search::Search;
use candidates::set::CandidateSet;
use rules::rule::Rule;
use sheets::sheet::Sheet;

// The place of the first that v doesn't fit.
fn first_unfit<S: Sheet>(sheet: &S, v: usize, before: &[usize]) -> Option<usize>
    ensures { result ≡ first_unfit (S.Sheet.meaning sheet.now) v before.now }
{
    before.iter().position(|u| !sheet.fits(v, *u))
}

// The set of a list that is a clique written upwards; otherwise the first entry that is not as it should be.
fn accepted<S: Sheet>(sheet: &S, list: &[usize]) -> Result<CandidateSet, OfferRefusal>
    ensures { let asked = first_no (offer_questions (S.Sheet.meaning sheet.now) [] 0 list.now) in elim result [ Ok set ↦ (asked ≡ None) × (members set ≡ list.now) | Err e ↦ asked ≡ Some (offer_refused e) ] }
{
    let mut set = CandidateSet::empty();
    let mut least = 0;
    // A refusal names the place, and each entry is asked against those before it, so the list is walked with its index.
    for (place, v) in list.iter().enumerate() {
        if *v >= sheet.size() {
            return Err(OfferRefusal::NotBelow(place));
        }
        if *v < least {
            return Err(OfferRefusal::NotAbove(place));
        }
        if let Some(earlier) = first_unfit(sheet, *v, &list[..place]) {
            return Err(OfferRefusal::NotFitting(place, earlier));
        }
        set = set.with(*v);
        least = *v + 1;
    }
    Ok(set)
}

impl<S: Sheet, R: Rule> Search<S, R> {
    // A clique, its members upwards: it becomes the held set if none is held or it is heavier. Answers whether it was
    // taken.
    pub fn offer(&mut self, list: &[usize]) -> Result<bool, OfferRefusal>
        ensures value { replied (offer_answer result) (state_of self.new) ≡ offer_of (S.Sheet.meaning self.old.sheet) (state_of self.old) list.now }
        ensures same { Kept self.old self.new }
    {
        let set = accepted(&self.sheet, list)?;
        Ok(self.core.offer(&self.sheet, set))
    }
}
