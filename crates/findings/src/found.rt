// What a search finds in a number of grants.
ghost use Rattle.std.specs.Prelude.{◌≡◌, ◌+◌, ◌^◌, ◌<◌, ◌≤◌, [], take, replicate, Some, option_map};
ghost use Rattle.candidates.specs.Members.{members};
ghost use Rattle.findings.specs.Lines.{found_lines, yes_or_no};
ghost use Rattle.findings.specs.Searched.{Searched};
ghost use Rattle.findings.specs.Summaries.{Leads, collected, holding, noted, nothing, summary_of, told};
ghost use Rattle.runs.specs.Calls.{Grant, reply, written};
ghost use Rattle.runs.specs.Promise.{Promise};
ghost use Rattle.runs.specs.Worked.{WorkedCases};
ghost use Rattle.search.specs.Searching.{Kept, state_of};

use crate::listed::Listed;
use candidates::set::CandidateSet;
use rules::rule::Rule;
use search::search::Search;
use sheets::pairing::Pairing;
use sheets::sheet::Sheet;
use std::fmt;

// What is held, the ceiling, and what the grants answered together: whether the search is finished, and its nodes. (Both are
// printed, so neither is an Option of the other.)
#[derive(Clone, Copy)]
pub struct Found {
    pub pairing: Pairing,
    pub ceiling: u64,
    pub finished: bool,
    pub nodes: u64,
}

// What a search holds, as a set with its points. The search writes it into a lent buffer and answers a count; here the
// buffer has room for any set.
pub fn held_by<S: Sheet, R: Rule>(search: &Search<S, R>) -> Option<Pairing>
    ensures { option_map holding result ≡ told (written (state_of search.now).held (replicate 256 0)) }
{
    let mut buffer = [0; 256];
    let (count, points) = search.held(&mut buffer).ok()?;
    let set = front_of(&buffer, count);
    Some(Pairing { set, points })
}

// The front of a buffer as a set.
fn front_of(buffer: &[usize], count: usize) -> CandidateSet
    ensures { members result ≡ collected [] (take count buffer.now) }
{
    buffer
        .iter()
        .take(count)
        .fold(CandidateSet::empty(), |set, v| set.with(*v))
}

impl Found {
    // Before anything is asked.
    fn nothing() -> Found
        ensures { summary_of result ≡ nothing }
    {
        Found {
            pairing: Pairing {
                set: CandidateSet::empty(),
                points: 0,
            },
            ceiling: 0,
            finished: false,
            nodes: 0,
        }
    }

    // After one more grant.
    fn granted<S: Sheet, R: Rule>(self, search: &mut Search<S, R>, nodes: u64) -> Found
        requires { self.nodes + nodes < 2 ^ 64 }
        ensures value { summary_of result ≡ noted (summary_of self) (reply (S.Sheet.meaning search.old.sheet) (R.Rule.value search.old.rule) (state_of search.old) (Grant nodes)).answer }
        ensures after { state_of search.new ≡ (reply (S.Sheet.meaning search.old.sheet) (R.Rule.value search.old.rule) (state_of search.old) (Grant nodes)).next }
        ensures same { Kept search.old search.new }
    {
        match search.grant(nodes) {
            Ok((done, finished)) => Found {
                finished: self.finished || finished,
                nodes: self.nodes + done,
                ..self
            },
            Err(_) => self,
        }
    }

    // After so many grants, or fewer where the search is finished before.
    fn after_grants<S: Sheet, R: Rule>(search: &mut Search<S, R>, grants: u32, nodes: u64) -> Found
        requires { nodes ≤ 1000000 }
        ensures { Leads (S.Sheet.meaning search.old.sheet) (R.Rule.value search.old.rule) (state_of search.old) (replicate grants (Grant nodes)) (summary_of result) (state_of search.new) }
    {
        let mut found = Found::nothing();
        for _ in 0..grants {
            if found.finished {
                return found;
            }
            found = found.granted(search, nodes);
        }
        found
    }
}

// What a new search finds, which is granted 1,000,000 nodes until it is finished, so many times at most.
pub fn search_for<S: Sheet + Drop, R: Rule + Drop>(sheet: S, rule: R, grants: u32) -> Found
    ensures found { Searched (S.Sheet.meaning sheet) (R.Rule.value rule) grants result }
    ensures promise { Promise (S.Sheet.meaning sheet) (R.Rule.value rule) }
    ensures worked { WorkedCases }
{
    let mut search = Search::new(sheet, rule);
    let found = Found::after_grants(&mut search, grants, 1_000_000);
    Found {
        pairing: held_by(&search).unwrap_or(found.pairing),
        ceiling: search.ceiling(),
        ..found
    }
}

pub fn yes_or_no(yes: bool) -> &'static str
    ensures { result.now ≡ yes_or_no yes }
{
    if yes { "yes" } else { "no" }
}

impl fmt::Display for Found {
    ghost output = { λ found. Some (found_lines found) };

    fn fmt<W: fmt::Write>(&self, f: &mut fmt::Formatter<W>) -> fmt::Result {
        let set = Listed(self.pairing.set);
        let points = self.pairing.points;
        let ceiling = self.ceiling;
        let finished = yes_or_no(self.finished);
        let nodes = self.nodes;
        write!(
            f,
            "search{set}\nsearch points {points} ceiling {ceiling}\nfinished {finished} nodes {nodes}"
        )
    }
}
