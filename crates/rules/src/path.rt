// The path rule: the longest path upwards through the set.
ghost use Rattle.std.specs.Prelude.{◌≡◌, ◌^◌, ◌<◌};
ghost use Rattle.candidates.specs.Members.{members};
ghost use Rattle.rules.specs.Noted.{at};
ghost use Rattle.rules.specs.Path.{length_of, path as path_of};
ghost use Rattle.rules.specs.PathBounds.{path-bounds};

use crate::noted::Noted;
use crate::rule::{Rule, inside};
use candidates::set::CandidateSet;
use sheets::sheet::Sheet;
use sheets::sums::rho;

#[derive(Clone, Copy)]
pub struct Path;

// The length of v, where the lower members have theirs.
fn length_of<S: Sheet>(
    sheet: &S,
    c: CandidateSet,
    lower: CandidateSet,
    lengths: &Noted,
    v: usize,
) -> u64
    requires { length_of (S.Sheet.meaning sheet.now) (members c) (members lower) (at lengths.now) v < 2 ^ 64 }
    ensures { result ≡ length_of (S.Sheet.meaning sheet.now) (members c) (members lower) (at lengths.now) v }
{
    let fitting = lower.meet(sheet.fitting(v));
    rho(sheet, c, v) + rho(sheet, lower, v) + lengths.greatest(fitting)
}

// The greatest length of a member. A loop and no chain, since each length is noted for the higher members.
fn longest<S: Sheet>(sheet: &S, c: CandidateSet, s: CandidateSet) -> u64
    requires { path_of (S.Sheet.meaning sheet.now) (members c) (members s) < 2 ^ 64 }
    ensures { result ≡ path_of (S.Sheet.meaning sheet.now) (members c) (members s) }
{
    let mut lengths = Noted::zeros();
    let mut lower = CandidateSet::empty();
    let mut most: u64 = 0;
    for v in s.iter() {
        let length = length_of(sheet, c, lower, &lengths, v);
        lengths.note(v, length);
        lower = lower.with(v);
        most = most.max(length);
    }
    most
}

impl Rule for Path {
    ghost value = { λ _. path_of };

    ghost bounds = { λ _. path-bounds };

    fn number<S: Sheet>(&self, sheet: &S, c: CandidateSet, s: CandidateSet) -> u64 {
        longest(sheet, inside(sheet, c), inside(sheet, s))
    }
}
