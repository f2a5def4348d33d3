// What is asked of a search, and what it holds.
ghost use Rattle.std.specs.Prelude.{◌≡◌};
ghost use Rattle.candidates.specs.Members.{members};
ghost use Rattle.frames.specs.View.{held_of};
ghost use Rattle.runs.specs.State.{ceiling as ceiling_of, finished, offered, start, state, takes};
ghost use Rattle.sheets.specs.Weights.{weight as weight_of};

use crate::frame::Frame;
use crate::search_core::Core;
use crate::stack::Stack;
use candidates::set::CandidateSet;
use sheets::pairing::Pairing;
use sheets::sheet::Sheet;
use sheets::sums::weight;

impl Core {
    // A new search holds none and has one frame, of all candidates, whose mark is the sum of all points.
    pub fn new<S: Sheet>(sheet: &S) -> Core
        ensures { result ≡ start (S.Sheet.meaning sheet.now) }
    {
        let clique = CandidateSet::empty();
        let rest = CandidateSet::first(sheet.size());
        let mark = weight(sheet, rest);
        Core {
            stack: Stack::of(Frame { clique, rest, mark }),
            held: None,
            marks: clique,
        }
    }

    // A search is finished when the stack is empty.
    pub fn is_finished(&self) -> bool
        ensures { result ≡ finished self.now }
    {
        self.stack.peek().is_none()
    }

    // Holds the set if none is held or it is heavier, and answers whether it was taken.
    pub fn offer<S: Sheet>(&mut self, sheet: &S, set: CandidateSet) -> bool
        ensures value { result ≡ takes self.old.held (weight_of (S.Sheet.meaning sheet.now) (members set)) }
        ensures after { self.new ≡ state (offered (S.Sheet.meaning sheet.now) self.old.held (members set)) self.old.stack }
    {
        let weight = weight(sheet, set);
        if let Some(held) = self.held
            && weight <= held
        {
            return false;
        }
        self.held = Some(weight);
        self.marks = set;
        true
    }

    // The held set and its weight.
    pub fn held(&self) -> Option<Pairing>
        ensures { held_of result ≡ self.now.held }
    {
        let set = self.marks;
        self.held.map(|points| Pairing { set, points })
    }

    // The greatest of the held weight, 0, and the marks on the stack.
    pub fn ceiling(&self) -> u64
        ensures { result ≡ ceiling_of self.now }
    {
        self.held.unwrap_or(0).max(self.stack.highest())
    }
}
