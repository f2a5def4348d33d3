// The marks on a stack of frames.
ghost use Rattle.std.specs.Prelude.{◌≡◌};
ghost use Rattle.frames.specs.Shown.{frames_of};
ghost use Rattle.runs.specs.State.{highest as highest_of};

use crate::frame::Frame;
use crate::stack::Stack;

impl Stack<Frame> {
    // The greatest of 0 and the marks.
    pub(crate) fn highest(&self) -> u64
        ensures { result ≡ highest_of (frames_of self.now) }
    {
        let frames = &self.items[..self.count];
        frames.iter().map(|frame| frame.mark).max().unwrap_or(0)
    }
}
