// A sheet: candidates, which two of them fit, and the points that two earn together.
ghost use Rattle.std.specs.Prelude.{◌≡◌, ℕ};
ghost use Rattle.candidates.specs.Members.{has};
ghost use Rattle.sheets.specs.Meaning.{Meaning, Lawful};

use candidates::set::CandidateSet;

// The points of two candidates, and sums of them.
pub type Points = u64;

pub trait Sheet {
    // What the sheet means is what it answers.
    ghost meaning: { Self → Meaning };

    ghost lawful: { (s : Self) → Lawful (meaning s) };

    // How many candidates there are.
    fn size(&self) -> usize
        ensures { result ≡ (meaning self.now).size };

    // Whether two can both be true.
    fn fits(&self, u: usize, v: usize) -> bool
        ensures { result ≡ (meaning self.now).fit u v };

    // What two earn together.
    fn points(&self, u: usize, v: usize) -> Points
        ensures { result ≡ (meaning self.now).points u v };

    // All that fit v.
    fn fitting(&self, v: usize) -> CandidateSet
        ensures { (k : ℕ) → has result k ≡ (meaning self.now).fit v k }
    {
        // The candidates are numbers: the range is all there is to go over, and a fold over it would be no plainer.
        let mut set = CandidateSet::empty();
        for u in 0..self.size() {
            if self.fits(v, u) {
                set = set.with(u);
            }
        }
        set
    }
}
