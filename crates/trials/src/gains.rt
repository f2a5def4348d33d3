// Gains by definition: every pair is asked for, and every clique is tried.
use candidates::set::CandidateSet;
use sheets::sheet::Sheet;

// The gain of a set over c: the points of each member with c and, once, with each lower member.
fn gain<S: Sheet>(sheet: &S, c: CandidateSet, set: CandidateSet) -> u64 {
    // By loops, since each member has lower ones of its own.
    let mut sum: u64 = 0;
    for v in set.iter() {
        let lower = set.meet(CandidateSet::first(v));
        for u in c.iter().chain(lower.iter()) {
            sum = sum.wrapping_add(sheet.points(u, v));
        }
    }
    sum
}

// The greatest gain over c of a clique that adds members of rest to a clique.
pub(crate) fn greatest_gain<S: Sheet>(
    sheet: &S,
    c: CandidateSet,
    clique: CandidateSet,
    rest: CandidateSet,
) -> u64 {
    let Some(v) = rest.lowest() else {
        return gain(sheet, c, clique);
    };
    let rest = rest.without(v);
    let with: u64 = greatest_gain(sheet, c, clique.with(v), rest.meet(sheet.fitting(v)));
    with.max(greatest_gain(sheet, c, clique, rest))
}
