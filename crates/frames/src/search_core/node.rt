// One node of a search.
ghost use Rattle.std.specs.Prelude.{◌≡◌, ◌<◌, length, if◌then◌else◌, Some, None};
ghost use Rattle.candidates.specs.Members.{members};
ghost use Rattle.frames.specs.Branches.{branched};
ghost use Rattle.frames.specs.Shown.{frames_of};
ghost use Rattle.runs.specs.State.{bound as bound_of, node as node_of, reaches};

use crate::frame::Frame;
use crate::search_core::Core;
use crate::stack::Stack;
use candidates::set::CandidateSet;
use rules::rule::Rule;
use sheets::sheet::Sheet;
use sheets::sums::weight;

// W(C) plus the rule's number, unless the held weight reaches it.
fn open_bound<S: Sheet, R: Rule>(sheet: &S, rule: &R, core: &Core, top: Frame) -> Option<u64>
    ensures { let b = bound_of (S.Sheet.meaning sheet.now) (R.Rule.value rule.now) (members top.clique) (members top.rest) in result ≡ (if reaches core.now.held b then None else Some b) }
{
    let weight = weight(sheet, top.clique);
    let number = match core.held {
        Some(held) if weight <= held => rule.above(sheet, top.clique, top.rest, held - weight)?,
        _ => rule.number(sheet, top.clique, top.rest),
    };
    Some(weight + number)
}

// v branches off the top frame.
fn branch_top(stack: &mut Stack<Frame>, v: usize, fitting: CandidateSet, bound: u64)
    requires { length stack.old < 257 }
    ensures { frames_of stack.new ≡ branched v (members fitting) bound (frames_of stack.old) }
{
    if let Some(top) = stack.top() {
        let above = top.branch(v, fitting, bound);
        stack.push(above);
    }
}

// One node: the top frame is examined. A finished search stays as it is. (Sheet and rule are two parameters, since one rule
// serves any sheet.)
pub fn node<S: Sheet, R: Rule>(sheet: &S, rule: &R, core: &mut Core)
    ensures { core.new ≡ node_of (S.Sheet.meaning sheet.now) (R.Rule.value rule.now) core.old }
{
    let Some(top) = core.stack.peek() else {
        return;
    };
    let Some(v) = top.rest.lowest() else {
        core.offer(sheet, top.clique);
        core.stack.pop();
        return;
    };
    let Some(bound) = open_bound(sheet, rule, core, top) else {
        core.stack.pop();
        return;
    };
    branch_top(&mut core.stack, v, sheet.fitting(v), bound);
}
