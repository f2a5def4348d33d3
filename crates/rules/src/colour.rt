// The colour rule: the set falls into classes in which no two fit, and a clique has at most one of each.
ghost use Rattle.std.specs.Prelude.{◌≡◌, ℕ, length};
ghost use Rattle.candidates.specs.Members.{has, members};
ghost use Rattle.candidates.specs.Sets.{is_in};
ghost use Rattle.rules.specs.Bounds.{inside as inside_of, number_inside};
ghost use Rattle.rules.specs.Colour.{Partition, class_of, classes, colour as colour_of, coloured as coloured_by, raised, rise as rise_of, started as started_by, sum_of_highest};
ghost use Rattle.rules.specs.ColourBounds.{colour-bounds};
ghost use Rattle.rules.specs.Noted.{AtMost, at};

use crate::noted::Noted;
use crate::rule::{Rule, inside};
use candidates::set::CandidateSet;
use sheets::sheet::Sheet;
use sheets::sums::rho;

#[derive(Clone, Copy)]
pub struct Colour;

// σ at the start.
fn started<S: Sheet>(sheet: &S, c: CandidateSet, s: CandidateSet) -> Noted
    ensures { at result ≡ started_by (S.Sheet.meaning sheet.now) (members c) (members s) }
{
    let mut sigma = Noted::zeros();
    for v in s.iter() {
        sigma.note(v, rho(sheet, c, v));
    }
    sigma
}

// The class that is picked from those that are left.
fn class_of<S: Sheet>(sheet: &S, sigma: &Noted, left: CandidateSet) -> CandidateSet
    ensures { (k : ℕ) → has result k ≡ is_in k (class_of (S.Sheet.meaning sheet.now) (at sigma.now) (members left)) }
{
    let mut class = CandidateSet::empty();
    let mut open = left;
    while let Some(v) = sigma.least(open) {
        class = class.with(v);
        open = open.without(v).minus(sheet.fitting(v));
    }
    class
}

// The greatest of the points of v with a member of the class.
fn rise<S: Sheet>(sheet: &S, class: CandidateSet, v: usize) -> u64
    ensures { result ≡ rise_of (S.Sheet.meaning sheet.now) (members class) v }
{
    class.iter().map(|u| sheet.points(u, v)).max().unwrap_or(0)
}

// Raises σ for each that a class leaves. It has room: it is at most 512 times the most points of two.
fn raise<S: Sheet>(sheet: &S, class: CandidateSet, left: CandidateSet, sigma: &mut Noted)
    requires { AtMost 33553408 (at sigma.old) }
    ensures { at sigma.new ≡ raised (S.Sheet.meaning sheet.now) (members class) (members left) (at sigma.old) }
{
    for v in left.iter() {
        sigma.add(v, rise(sheet, class, v));
    }
}

// The sum of the highest σ of each class, where σ starts at no more than 256 times the most points of two.
fn coloured<S: Sheet>(sheet: &S, mut sigma: Noted, s: CandidateSet) -> u64
    requires { AtMost 16776704 (at sigma) }
    ensures { result ≡ sum_of_highest (coloured_by (S.Sheet.meaning sheet.now) (length (members s)) (at sigma) (members s)) }
{
    let mut left = s;
    let mut sum = 0;
    while !left.is_empty() {
        let class = class_of(sheet, &sigma, left);
        sum += sigma.greatest(class);
        left = left.minus(class);
        raise(sheet, class, left, &mut sigma);
    }
    sum
}

impl Colour {
    // The sum, over the classes that s falls into, of the greatest σ in each.
    pub fn sum_of_highest<S: Sheet>(sheet: &S, c: CandidateSet, s: CandidateSet) -> u64
        ensures value { result ≡ number_inside colour_of (S.Sheet.meaning sheet.now) (members c) (members s) }
        ensures classes { let m = S.Sheet.meaning sheet.now in Partition m (inside_of m (members s)) (classes m (inside_of m (members c)) (inside_of m (members s))) }
    {
        let c = inside(sheet, c);
        let s = inside(sheet, s);
        coloured(sheet, started(sheet, c, s), s)
    }
}

impl Rule for Colour {
    ghost value = { λ _. colour_of };

    ghost bounds = { λ _. colour-bounds };

    fn number<S: Sheet>(&self, sheet: &S, c: CandidateSet, s: CandidateSet) -> u64 {
        Colour::sum_of_highest(sheet, c, s)
    }
}
