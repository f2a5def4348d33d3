// The numbers of the three rules for a whole sheet, side by side.
ghost use Rattle.std.specs.Prelude.{◌≡◌, Some};
ghost use Rattle.rules.specs.Numbers.{Worked, numbers_of, numbers_line};

use crate::colour::Colour;
use crate::flat::Flat;
use crate::path::Path;
use crate::rule::Rule;
use candidates::set::CandidateSet;
use sheets::sheet::Sheet;
use std::fmt;

#[derive(Clone, Copy)]
pub struct Numbers {
    pub flat: u64,
    pub colour: u64,
    pub path: u64,
}

impl Numbers {
    // How much any clique of the sheet can weigh, by each rule.
    pub fn of<S: Sheet>(sheet: &S) -> Numbers
        ensures value { result ≡ numbers_of (S.Sheet.meaning sheet.now) }
        ensures worked { Worked }
    {
        let none = CandidateSet::empty();
        let all = CandidateSet::first(sheet.size());
        Numbers {
            flat: Flat.number(sheet, none, all),
            colour: Colour.number(sheet, none, all),
            path: Path.number(sheet, none, all),
        }
    }
}

impl fmt::Display for Numbers {
    ghost output = { λ numbers. Some (numbers_line numbers) };

    fn fmt<W: fmt::Write>(&self, f: &mut fmt::Formatter<W>) -> fmt::Result {
        let Numbers { flat, colour, path } = *self;
        write!(f, "flat {flat} colour {colour} path {path}")
    }
}
