// The search under each rule and made lists of calls, against the exhaustive pairing.
use crate::counts::Count;
use crate::made::{made_entries, made_set};
use crate::random::Random;
use exhaustive::pairing::best_pairing;
use findings::found::held_by;
use rules::colour::Colour;
use rules::flat::Flat;
use rules::lesser::Lesser;
use rules::path::Path;
use rules::rule::Rule;
use search::search::Search;
use sheets::sheet::{Points, Sheet};
use sheets::table::TableSheet;
use std::alloc::{AllocError, Global};
use std::fmt;

// How many searches were run, and how often something was not as promised.
#[derive(Clone, Copy, Default)]
pub(crate) struct Searches {
    runs: Count,
    unfinished: Count,
    nodes_off: Count,
    ceiling_low: Count,
    set_wrong: Count,
}

// Whether a grant said finished, after how many nodes, and whether an offer as heavy as the best was taken: counted here and
// not by findings, which is what is tried.
#[derive(Clone, Copy, Default)]
struct Run {
    nodes: u64,
    finished: bool,
    best_taken: bool,
}

// Offers the members of a made set, which is mostly no clique; answers whether it was taken.
fn offer_made<S: Sheet, R: Rule>(
    heap: Global,
    random: &mut Random,
    search: &mut Search<S, R>,
) -> Result<bool, AllocError> {
    let set = made_set(random).meet(made_set(random));
    let list: Vec<usize> = set.iter().collect(heap)?;
    Ok(search.offer(list.as_slice()).unwrap_or(false))
}

impl Run {
    fn grant<S: Sheet, R: Rule>(&mut self, search: &mut Search<S, R>, k: u64) {
        if let Ok((nodes, finished)) = search.grant(k) {
            self.nodes = self.nodes.wrapping_add(nodes);
            self.finished = finished;
        }
    }

    // Some made calls first, then grants until it is finished.
    fn to_the_end<S: Sheet, R: Rule>(
        heap: Global,
        random: &mut Random,
        search: &mut Search<S, R>,
        best: Points,
    ) -> Result<Run, AllocError> {
        let mut run = Run::default();
        for _ in 0..random.below(8) {
            if random.below(2) == 0 {
                run.grant(search, u64::from(random.below(20)));
            } else if offer_made(heap, random, search)? {
                run.best_taken |= held_by(search).is_some_and(|held| held.points == best);
            }
        }
        for _ in 0..1000 {
            if run.finished {
                break;
            }
            run.grant(search, 1000);
        }
        Ok(run)
    }
}

impl Searches {
    fn judge<R: Rule + Drop>(
        &mut self,
        heap: Global,
        random: &mut Random,
        sheet: TableSheet,
        rule: R,
    ) -> Result<(), AllocError> {
        let best = best_pairing(&sheet);
        let mut search = Search::new(sheet, rule);
        self.ceiling_low.note(search.ceiling() < best.points);
        let run = Run::to_the_end(heap, random, &mut search, best.points)?;
        self.runs.note(true);
        self.unfinished.note(!run.finished);
        self.ceiling_low.note(search.ceiling() < best.points);
        self.nodes_off.note(run.nodes >> sheet.size().min(60) > 1);
        let right = held_by(&search).is_some_and(|held| {
            held.points == best.points && (run.best_taken || held.set == best.set)
        });
        self.set_wrong.note(!right);
        let _ = search.close();
        Ok(())
    }

    pub(crate) fn run(heap: Global) -> Result<Searches, AllocError> {
        let mut random = Random(6364136223846793005);
        let mut all = Searches::default();
        for _ in 0..1500 {
            let n = if random.below(100) == 0 {
                13 + usize::from(random.below(6))
            } else {
                1 + usize::from(random.below(12))
            };
            let entries = made_entries(heap, &mut random, n)?;
            if let Ok(sheet) = TableSheet::new(n, entries.as_slice()) {
                all.judge(heap, &mut random, sheet, Flat)?;
                all.judge(heap, &mut random, sheet, Colour)?;
                all.judge(heap, &mut random, sheet, Path)?;
                all.judge(heap, &mut random, sheet, Lesser(Colour, Path))?;
            }
        }
        Ok(all)
    }
}

impl fmt::Display for Searches {
    fn fmt<W: fmt::Write>(&self, f: &mut fmt::Formatter<W>) -> fmt::Result {
        let Searches {
            runs,
            unfinished,
            nodes_off,
            ceiling_low,
            set_wrong,
        } = *self;
        write!(
            f,
            "searches: {runs} runs, {unfinished} unfinished, {nodes_off} with too many nodes, {ceiling_low} with a ceiling too low, {set_wrong} with another set"
        )
    }
}
