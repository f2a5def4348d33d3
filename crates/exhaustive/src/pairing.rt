// The heaviest set, and among equals the first in list order, by trying every clique in that order.
ghost use Rattle.std.specs.Prelude.{◌≡◌, ℕ, List, []};
ghost use Rattle.candidates.specs.Members.{members};
ghost use Rattle.exhaustive.specs.Explored.{Explored, held_of};
ghost use Rattle.sheets.specs.Frames.{Open};
ghost use Rattle.sheets.specs.Heaviest.{FirstHeaviest};

use crate::frame::Frame;
use candidates::set::CandidateSet;
use sheets::pairing::Pairing;
use sheets::sheet::Sheet;
use sheets::sums::weight;

// What is held after one more set: it gives way only to a heavier one.
fn heavier<S: Sheet>(sheet: &S, held: Option<Pairing>, set: CandidateSet) -> Option<Pairing>
    ensures { Explored (S.Sheet.meaning sheet.now) (members set) [] (held_of held) (held_of result) }
{
    let points = weight(sheet, set);
    match held {
        Some(best) if best.points >= points => held,
        _ => Some(Pairing { set, points }),
    }
}

// What is held after every clique that comes from the frame: first those with the lowest of its rest, then those
// without it.
fn explore<S: Sheet>(sheet: &S, frame: Frame, held: Option<Pairing>) -> Option<Pairing>
    requires { Open (S.Sheet.meaning sheet.now) (members frame.clique) (members frame.rest) }
    ensures { Explored (S.Sheet.meaning sheet.now) (members frame.clique) (members frame.rest) (held_of held) (held_of result) }
{
    let Some(v) = frame.rest.lowest() else {
        return heavier(sheet, held, frame.clique);
    };
    let (with, without) = frame.branch(sheet, v);
    let held = explore(sheet, with, held);
    explore(sheet, without, held)
}

// The pairing of a sheet. It is the only set that is what its contract says.
pub fn best_pairing<S: Sheet>(sheet: &S) -> Pairing
    ensures heaviest { FirstHeaviest (S.Sheet.meaning sheet.now) (members result.set) result.points }
    ensures only { (K : List ℕ) (w : ℕ) → FirstHeaviest (S.Sheet.meaning sheet.now) K w → (K ≡ members result.set) × (w ≡ result.points) }
{
    let all = Frame {
        clique: CandidateSet::empty(),
        rest: CandidateSet::first(sheet.size()),
    };
    explore(sheet, all, None).unwrap()
}
