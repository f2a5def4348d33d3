// Each rule's number against the greatest gain of all cliques, on made sheets and sets.
use crate::counts::Count;
use crate::gains::greatest_gain;
use crate::made::{made_entries, made_set};
use crate::random::Random;
use candidates::set::CandidateSet;
use rules::colour::Colour;
use rules::flat::Flat;
use rules::lesser::Lesser;
use rules::path::Path;
use rules::rule::Rule;
use sheets::sheet::Sheet;
use sheets::table::TableSheet;
use std::alloc::{AllocError, Global};
use std::fmt;

// How many cases were tried, and how many of them broke a promise.
#[derive(Clone, Copy, Default)]
pub(crate) struct Tally {
    cases: Count,
    too_low: Count,
    above_flat: Count,
    lesser_wrong: Count,
}

impl Tally {
    fn note<S: Sheet>(&mut self, sheet: &S, c: CandidateSet, s: CandidateSet) {
        let least = greatest_gain(
            sheet,
            c,
            CandidateSet::empty(),
            s.meet(CandidateSet::first(sheet.size())),
        );
        let flat = Flat.number(sheet, c, s);
        let colour: u64 = Colour.number(sheet, c, s);
        let path = Path.number(sheet, c, s);
        let lesser = Lesser(Colour, Path).number(sheet, c, s);
        self.cases.note(true);
        self.too_low.note(
            [flat, colour, path, lesser]
                .iter()
                .any(|number| *number < least),
        );
        self.above_flat.note(colour > flat || path > flat);
        self.lesser_wrong.note(lesser != colour.min(path));
    }

    pub(crate) fn run(heap: Global) -> Result<Tally, AllocError> {
        let mut random = Random(88172645463325252);
        let mut tally = Tally::default();
        for _ in 0..4000 {
            let n = 1 + usize::from(random.below(10));
            let entries = made_entries(heap, &mut random, n)?;
            if let Ok(sheet) = TableSheet::new(n, entries.as_slice()) {
                let c = made_set(&mut random);
                let s = made_set(&mut random);
                tally.note(&sheet, c, s);
            }
        }
        Ok(tally)
    }
}

impl fmt::Display for Tally {
    fn fmt<W: fmt::Write>(&self, f: &mut fmt::Formatter<W>) -> fmt::Result {
        let Tally {
            cases,
            too_low,
            above_flat,
            lesser_wrong,
        } = *self;
        write!(
            f,
            "rules: {cases} cases, {too_low} below the greatest gain, {above_flat} above flat, {lesser_wrong} lesser not the smaller"
        )
    }
}
