// What can be done with a stack.
ghost use Rattle.std.specs.Borrow.{LendsIf, sem};
ghost use Rattle.std.specs.Option.{option_map};
ghost use Rattle.std.specs.Prelude.{◌≡◌, ◌<◌, [], ◌∷◌, length, drop};
ghost use Rattle.frames.specs.contracts.stack.Stack.{the_row as stack_row};
ghost use Rattle.frames.specs.Stacks.{top_of};

use crate::stack::Stack;

impl<F: Copy> Stack<F> {
    // A stack of one.
    pub(crate) fn of(f: F) -> Self
        ensures { result ≡ f ∷ [] }
    {
        Stack {
            items: [f; 257],
            count: 1,
        }
    }

    // A copy of the top; an empty stack has none.
    pub(crate) fn peek(&self) -> Option<F>
        ensures { result ≡ top_of self.now }
    {
        self.items[..self.count].last().copied()
    }

    // The top, lent to be changed; an empty stack has none.
    pub(crate) fn top(&mut self) -> Option<&mut F>
        ensures* changes { sem 𝓛 (LendsIf (stack_row F.row) F.row self.entry result (λ f. f ∷ drop 1 self.old) self.old) }
        ensures value { option_map (λ f. f.now) result ≡ top_of self.old }
    {
        if self.count == 0 {
            None
        } else {
            Some(&mut self.items[self.count - 1])
        }
    }

    pub(crate) fn push(&mut self, f: F)
        requires { length self.old < 257 }
        ensures { self.new ≡ f ∷ self.old }
    {
        self.items[self.count] = f;
        self.count += 1;
    }

    // Takes the top away; an empty stack stays empty.
    pub(crate) fn pop(&mut self)
        ensures { self.new ≡ drop 1 self.old }
    {
        self.count = self.count.saturating_sub(1);
    }
}
