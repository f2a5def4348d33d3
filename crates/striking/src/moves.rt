// Strikes and restores as data, and what a list of them leaves struck.
ghost use Rattle.std.specs.Prelude.{◌≡◌, ℕ, ◌<◌, ◌&&◌, if◌then◌else◌, Decides, nat_eq, nat_lt};
ghost use Rattle.candidates.specs.Members.{members};
ghost use Rattle.candidates.specs.Sets.{is_in};
ghost use Rattle.striking.specs.Moves.{named, strikes, LastStrikes};

use crate::layer::Struck;
use sheets::sheet::Sheet;

// A call on the layer, with the candidate that it names.
#[derive(Clone, Copy)]
pub enum Move {
    Strike(usize),
    Restore(usize),
}

impl<S: Sheet> Struck<S> {
    // Accepted or refused, a move concerns at most the candidate that it names.
    fn make(&mut self, step: Move)
        ensures after { (v : ℕ) → is_in v (members self.new.struck) ≡ (if nat_eq (named step) v && nat_lt v (S.Sheet.meaning self.old.sheet).size then strikes step else is_in v (members self.old.struck)) }
        ensures below { self.new.sheet ≡ self.old.sheet }
    {
        let _ = match step {
            Move::Strike(v) => self.strike(v),
            Move::Restore(v) => self.restore(v),
        };
    }

    // A new layer over the sheet, after the moves one by one; those that are refused change nothing.
    pub fn after(sheet: S, moves: &[Move]) -> Struck<S>
        ensures struck { (v : ℕ) → Decides (is_in v (members result.struck)) ((v < (S.Sheet.meaning sheet).size) × LastStrikes v moves.now) }
        ensures below { result.sheet ≡ sheet }
    {
        let mut layer = Struck::new(sheet);
        for step in moves {
            layer.make(*step);
        }
        layer
    }
}
