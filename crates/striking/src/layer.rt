// The striking layer: a sheet with a set of struck candidates.
ghost use Rattle.std.specs.Prelude.{◌≡◌, [], if◌then◌else◌, nat_lt, Ok, Err, MatchResult};
ghost use Rattle.striking.specs.declared.fault.StrikeFault.TheVariants.{Outside};
ghost use Rattle.candidates.specs.Members.{members};
ghost use Rattle.candidates.specs.Sets.{is_in, inserted, removed};
ghost use Rattle.striking.specs.Judged.{strike_judged, restore_judged};
ghost use Rattle.striking.specs.Laws.{struck-lawful};
ghost use Rattle.striking.specs.Striking.{struck as struck_of};

use crate::fault::StrikeFault;
use candidates::set::CandidateSet;
use sheets::sheet::{Points, Sheet};

// A struck candidate fits nothing and has no points; all else is as the sheet below says.
#[derive(Drop)]
pub struct Struck<S> {
    sheet: S,
    struck: CandidateSet,
}

impl<S> Struck<S> {
    // The layer over a sheet, with none struck.
    pub fn new(sheet: S) -> Struck<S>
        ensures below { result.sheet ≡ sheet }
        ensures none { members result.struck ≡ [] }
    {
        Struck {
            sheet,
            struck: CandidateSet::empty(),
        }
    }

    // The sheet below.
    pub fn into_inner(self) -> S
        ensures { result ≡ self.sheet }
    {
        let Struck { sheet, struck: _ } = self;
        sheet
    }

    fn is_struck(&self, v: usize) -> bool
        ensures { result ≡ is_in v (members self.now.struck) }
    {
        self.struck.contains(v)
    }
}

impl<S: Sheet> Struck<S> {
    // Whether the candidate v is struck.
    fn candidate_is_struck(&self, v: usize) -> Result<bool, StrikeFault>
        ensures { result ≡ (if nat_lt v (S.Sheet.meaning self.now.sheet).size then Ok (is_in v (members self.now.struck)) else Err Outside) }
    {
        if v < self.sheet.size() {
            Ok(self.is_struck(v))
        } else {
            Err(StrikeFault::Outside)
        }
    }

    // Adds v to the struck set. A refusal changes nothing. (That the sheet below stays is said in full: a word for it would
    // be longer.)
    pub fn strike(&mut self, v: usize) -> Result<(), StrikeFault>
        ensures value { result ≡ strike_judged (S.Sheet.meaning self.old.sheet).size (members self.old.struck) v }
        ensures after { MatchResult result (λ _. members self.new.struck ≡ inserted v (members self.old.struck)) (λ _. self.new ≡ self.old) }
        ensures below { self.new.sheet ≡ self.old.sheet }
    {
        if self.candidate_is_struck(v)? {
            return Err(StrikeFault::AlreadyStruck);
        }
        self.struck = self.struck.with(v);
        Ok(())
    }

    // Takes v out of the struck set. A refusal changes nothing.
    pub fn restore(&mut self, v: usize) -> Result<(), StrikeFault>
        ensures value { result ≡ restore_judged (S.Sheet.meaning self.old.sheet).size (members self.old.struck) v }
        ensures after { MatchResult result (λ _. members self.new.struck ≡ removed v (members self.old.struck)) (λ _. self.new ≡ self.old) }
        ensures below { self.new.sheet ≡ self.old.sheet }
    {
        if !self.candidate_is_struck(v)? {
            return Err(StrikeFault::NotStruck);
        }
        self.struck = self.struck.without(v);
        Ok(())
    }
}

impl<S: Sheet> Sheet for Struck<S> {
    ghost meaning = { λ s. struck_of (S.Sheet.meaning s.sheet) (members s.struck) };

    ghost lawful = { λ s. struck-lawful (S.Sheet.meaning s.sheet) (members s.struck) (S.Sheet.lawful s.sheet) };

    fn size(&self) -> usize {
        self.sheet.size()
    }

    fn fits(&self, u: usize, v: usize) -> bool {
        !self.is_struck(u) && !self.is_struck(v) && self.sheet.fits(u, v)
    }

    fn points(&self, u: usize, v: usize) -> Points {
        if self.is_struck(u) || self.is_struck(v) {
            0
        } else {
            self.sheet.points(u, v)
        }
    }
}
