// What sets of candidates earn, and whether all of a set fit each other. Any set is accepted.
ghost use Rattle.std.specs.Prelude.{◌≡◌, ◌≤◌, Decides};
ghost use Rattle.candidates.specs.Members.{members};
ghost use Rattle.sheets.specs.Cliques.{Clique, SmallCliques, fits_all};
ghost use Rattle.sheets.specs.Weights.{rho as rho_of, weight as weight_of};

use crate::sheet::{Points, Sheet};
use candidates::set::CandidateSet;

// The points of v with each member of the set.
pub fn rho<S: Sheet>(sheet: &S, set: CandidateSet, v: usize) -> Points
    ensures { result ≡ rho_of (S.Sheet.meaning sheet.now) (members set) v }
{
    set.iter().map(|u| sheet.points(u, v)).sum()
}

// The points of all pairs within the set, each pair once.
pub fn weight<S: Sheet>(sheet: &S, set: CandidateSet) -> Points
    ensures value { result ≡ weight_of (S.Sheet.meaning sheet.now) (members set) }
    ensures bound { result ≤ 2139029760 }
{
    // A loop, since each is asked against those that are left.
    let mut rest = set;
    let mut sum = 0;
    for v in set.iter() {
        rest = rest.without(v);
        sum += rho(sheet, rest, v);
    }
    sum
}

fn fits_all<S: Sheet>(sheet: &S, v: usize, set: CandidateSet) -> bool
    ensures { result ≡ fits_all (S.Sheet.meaning sheet.now) v (members set) }
{
    set.iter().all(|u| sheet.fits(v, u))
}

// Whether the members are candidates of the sheet that all fit each other.
pub fn is_clique<S: Sheet>(sheet: &S, set: CandidateSet) -> bool
    ensures value { Decides result (Clique (S.Sheet.meaning sheet.now) (members set)) }
    ensures small { SmallCliques (S.Sheet.meaning sheet.now) }
{
    // A loop, as in `weight`.
    let mut rest = set;
    for v in set.iter() {
        rest = rest.without(v);
        if v >= sheet.size() || !fits_all(sheet, v, rest) {
            return false;
        }
    }
    true
}
