// A new search and a list of calls on it.
ghost use Rattle.std.specs.Prelude.{◌≡◌, map, IfOk};
ghost use Rattle.runs.specs.Calls.{answers as answers_of, answers_from, reply, written};
ghost use Rattle.runs.specs.Promise.{Promise};
ghost use Rattle.runs.specs.Worked.{WorkedCases};
ghost use Rattle.search.specs.Replay.{answer_of, call_of};
ghost use Rattle.search.specs.Replies.{replied};
ghost use Rattle.search.specs.Searching.{Kept, state_of};

use crate::calls::{Answer, Call};
use crate::search::Search;
use rules::rule::Rule;
use sheets::sheet::Sheet;
use std::alloc::{AllocError, Global};

// The held set, written into a copy of the buffer.
fn held_in<S: Sheet, R: Rule>(
    search: &Search<S, R>,
    buffer: &Vec<usize>,
) -> Result<Answer, AllocError>
    ensures { IfOk result (λ a. answer_of a ≡ written (state_of search.now).held buffer.now.items) }
{
    let mut copy = buffer.clone()?;
    let held = search.held(&mut copy);
    Ok(Answer::Held(held, copy))
}

// One call.
fn answer<S: Sheet, R: Rule>(search: &mut Search<S, R>, call: &Call) -> Result<Answer, AllocError>
    ensures value { IfOk result (λ a. replied (answer_of a) (state_of search.new) ≡ reply (S.Sheet.meaning search.old.sheet) (R.Rule.value search.old.rule) (state_of search.old) (call_of call.now)) }
    ensures same { Kept search.old search.new }
{
    match call {
        Call::Grant(k) => Ok(Answer::Grant(search.grant(*k))),
        Call::Offer(list) => Ok(Answer::Offer(search.offer(list))),
        Call::Held(buffer) => held_in(search, buffer),
        Call::Ceiling => Ok(Answer::Ceiling(search.ceiling())),
    }
}

// The calls one after another.
fn run<S: Sheet, R: Rule>(
    heap: Global,
    search: &mut Search<S, R>,
    calls: &[Call],
) -> Result<Vec<Answer>, AllocError>
    ensures { IfOk result (λ v. map answer_of v.items ≡ answers_from (S.Sheet.meaning search.old.sheet) (R.Rule.value search.old.rule) (state_of search.old) (map call_of calls.now)) }
{
    let mut answers = Vec::new(heap);
    for call in calls {
        answers.push(answer(search, call)?)?;
    }
    Ok(answers)
}

// What the calls are answered one after another on a new search, and what a search promises of every list of calls.
pub fn replay<S: Sheet + Drop, R: Rule + Drop>(
    heap: Global,
    sheet: S,
    rule: R,
    calls: &[Call],
) -> Result<Vec<Answer>, AllocError>
    ensures answers { IfOk result (λ v. map answer_of v.items ≡ answers_of (S.Sheet.meaning sheet) (R.Rule.value rule) (map call_of calls.now)) }
    ensures promise { Promise (S.Sheet.meaning sheet) (R.Rule.value rule) }
    ensures worked { WorkedCases }
{
    let mut search = Search::new(sheet, rule);
    run(heap, &mut search, calls)
}
