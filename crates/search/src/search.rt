// A search over a sheet, under a rule, both of which it owns until it is closed.
ghost use Rattle.std.specs.Prelude.{◌≡◌};
ghost use Rattle.runs.specs.State.{ceiling as ceiling_of, start};
ghost use Rattle.search.specs.Searching.{state_of};

use frames::search_core::Core;
use rules::rule::Rule;
use sheets::sheet::Sheet;

pub mod grants;
pub mod helds;
pub mod offers;

#[derive(Drop)]
pub struct Search<S, R> {
    sheet: S,
    rule: R,
    core: Core,
}

impl<S: Sheet, R: Rule> Search<S, R> {
    pub fn new(sheet: S, rule: R) -> Self
        ensures state { state_of result ≡ start (S.Sheet.meaning sheet) }
        ensures owned { (result.sheet ≡ sheet) × (result.rule ≡ rule) }
    {
        let core = Core::new(&sheet);
        Search { sheet, rule, core }
    }

    // The greatest of the held weight, 0, and the marks on the stack.
    pub fn ceiling(&self) -> u64
        ensures { result ≡ ceiling_of (state_of self.now) }
    {
        self.core.ceiling()
    }

    // Gives sheet and rule back.
    pub fn close(self) -> (S, R)
        ensures { (result.0 ≡ self.sheet) × (result.1 ≡ self.rule) }
    {
        let Search {
            sheet,
            rule,
            core: _,
        } = self;
        (sheet, rule)
    }
}
