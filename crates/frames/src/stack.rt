// A stack with room for 257.
use std::marker::Model;

pub(crate) mod marks;
pub(crate) mod methods;

// The lowest item first. The room is fixed: a list that grows would let a search run out of memory.
#[derive(Drop)]
pub struct Stack<F> {
    items: [F; 257],
    count: usize,
}

// A stack is the list of its items, the top first.
impl<F> Model for Stack<F> {
    ghost use Rattle.std.specs.Prelude.{List, ◌≡◌, ◌≤◌, length, reverse, take};

    ghost Value = { List F };

    ghost view = { λ s. reverse (take s.count s.items) };

    ghost invariant = { λ s. (s.count ≤ 257) × (length s.items ≡ 257) };
}
