// Copying a sheet into a dense one.
ghost use Rattle.std.specs.Prelude.{◌≡◌, ℕ, ◌/◌, ◌%◌, ◌<◌, slice_index};
ghost use Rattle.candidates.specs.Members.{has};
ghost use Rattle.dense.specs.Answers.{meaning_of};
ghost use Rattle.dense.specs.Dense.{row};

use crate::sheet::DenseSheet;
use candidates::set::CandidateSet;
use sheets::sheet::Sheet;
use std::array;

// For each candidate, those that fit it.
fn rows_of<S: Sheet>(sheet: &S) -> [CandidateSet; 256]
    ensures { (u : ℕ) → u < 256 → (k : ℕ) → has (row result u) k ≡ (S.Sheet.meaning sheet.now).fit u k }
{
    array::from_fn(|u| sheet.fitting(u))
}

// The points of all pairs, in both orders. None are above 65,534, so the cast keeps them.
fn square_of<S: Sheet>(sheet: &S) -> [u16; 65536]
    ensures { (k : ℕ) → k < 65536 → slice_index result k ≡ (S.Sheet.meaning sheet.now).points (k / 256) (k % 256) }
{
    array::from_fn(|k| sheet.points(k / 256, k % 256) as u16)
}

impl DenseSheet {
    // A copy that answers alike.
    pub fn of<S: Sheet>(sheet: &S) -> DenseSheet
        ensures { meaning_of result ≡ S.Sheet.meaning sheet.now }
    {
        DenseSheet {
            size: sheet.size(),
            rows: rows_of(sheet),
            points: square_of(sheet),
        }
    }
}
