// What a dense sheet answers.
ghost use Rattle.dense.specs.Answers.{dense-lawful, meaning_of};

use crate::sheet::DenseSheet;
use candidates::set::CandidateSet;
use sheets::sheet::{Points, Sheet};

impl Sheet for DenseSheet {
    ghost meaning = { meaning_of };

    ghost lawful = { dense-lawful };

    fn size(&self) -> usize {
        self.size
    }

    fn fits(&self, u: usize, v: usize) -> bool {
        self.rows.get(u).is_some_and(|row| row.contains(v))
    }

    fn points(&self, u: usize, v: usize) -> Points {
        // With v from 256 on the place would be one of a later row.
        if u < 256 && v < 256 {
            Points::from(self.points[256 * u + v])
        } else {
            0
        }
    }

    fn fitting(&self, v: usize) -> CandidateSet {
        self.rows.get(v).copied().unwrap_or(CandidateSet::empty())
    }
}
