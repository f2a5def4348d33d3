// The dense make of sheet: for each candidate the set of those that fit it, and the points of all pairs in a square.
ghost use Rattle.dense.specs.Dense.{meaning_by};
ghost use Rattle.sheets.specs.Meaning.{Lawful};

use candidates::set::CandidateSet;

pub mod answers;

// Row u holds all that fit u; the points of u and v stand at 256 u + v. The arrays have a fixed size, so that no copy
// can fail.
#[derive(Drop)]
pub struct DenseSheet {
    pub(crate) size: usize,
    pub(crate) rows: [CandidateSet; 256],
    pub(crate) points: [u16; 65536],
    ghost laws: { ∥ Lawful (meaning_by size rows points) ∥₁ },
}
