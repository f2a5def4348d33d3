// The flat rule: all that the set could earn if all of it fitted.
ghost use Rattle.std.specs.Prelude.{◌≡◌};
ghost use Rattle.candidates.specs.Members.{members};
ghost use Rattle.sheets.specs.Weights.{rho as rho_of, total};
ghost use Rattle.rules.specs.Flat.{flat};
ghost use Rattle.rules.specs.FlatBounds.{flat-bounds};

use crate::rule::{Rule, inside};
use candidates::set::CandidateSet;
use sheets::sheet::{Points, Sheet};
use sheets::sums::{rho, weight};

#[derive(Clone, Copy)]
pub struct Flat;

// The points of each in s with each in c.
fn between<S: Sheet>(sheet: &S, c: CandidateSet, s: CandidateSet) -> Points
    ensures { result ≡ total (rho_of (S.Sheet.meaning sheet.now) (members c)) (members s) }
{
    s.iter().map(|v| rho(sheet, c, v)).sum()
}

impl Rule for Flat {
    ghost value = { λ _. flat };

    ghost bounds = { λ _. flat-bounds };

    fn number<S: Sheet>(&self, sheet: &S, c: CandidateSet, s: CandidateSet) -> u64 {
        let c = inside(sheet, c);
        let s = inside(sheet, s);
        between(sheet, c, s) + weight(sheet, s)
    }
}
