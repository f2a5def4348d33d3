// A search without its sheet and its rule.
use crate::frame::Frame;
use crate::stack::Stack;
use candidates::set::CandidateSet;
use sheets::sheet::Points;
use std::marker::Model;

pub mod methods;
pub mod node;

// The frames, and the weight of the held set, if one is held, beside its marks: each node asks the weight, and few the marks.
#[derive(Drop)]
pub struct Core {
    stack: Stack<Frame>,
    held: Option<Points>,
    marks: CandidateSet,
}

// A search is its state as the definitions have it. Its stack has room for all that may still be added.
impl Model for Core {
    ghost use Rattle.std.specs.Prelude.{◌≤◌};
    ghost use Rattle.frames.specs.Shown.{frames_of, reach};
    ghost use Rattle.frames.specs.View.{held_by};
    ghost use Rattle.runs.specs.State.{State, state};

    ghost Value = { State };

    ghost view = { λ c. state (held_by c.marks c.held) (frames_of c.stack) };

    ghost invariant = { λ c. reach (frames_of c.stack) ≤ 257 };
}
