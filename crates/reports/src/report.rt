// What is reported of a sheet: how many candidates it has, the pairing, the numbers of the bounding rules, and what a
// search finds.
ghost use Rattle.std.specs.Prelude.{Some};
ghost use Rattle.reports.specs.Lines.{report_lines};
ghost use Rattle.reports.specs.Reports.{Reports};

use exhaustive::pairing::best_pairing;
use findings::found::{Found, search_for};
use findings::listed::Listed;
use rules::colour::Colour;
use rules::lesser::Lesser;
use rules::numbers::Numbers;
use rules::path::Path;
use sheets::pairing::Pairing;
use sheets::sheet::Sheet;
use std::fmt;

// (The report on a list has other fields and other lines.)
#[derive(Clone, Copy)]
pub struct Report {
    pub candidates: usize,
    pub pairing: Pairing,
    pub numbers: Numbers,
    pub found: Found,
}

impl Report {
    // The report on any sheet, with a search by the lesser of colour and path.
    pub fn of<S: Sheet + Drop>(sheet: S) -> Report
        ensures { Reports (S.Sheet.meaning sheet) result }
    {
        let candidates = sheet.size();
        let pairing = best_pairing(&sheet);
        let numbers = Numbers::of(&sheet);
        let found = search_for(sheet, Lesser(Colour, Path), 50);
        Report {
            candidates,
            pairing,
            numbers,
            found,
        }
    }
}

impl fmt::Display for Report {
    ghost output = { λ report. Some (report_lines report) };

    fn fmt<W: fmt::Write>(&self, f: &mut fmt::Formatter<W>) -> fmt::Result {
        let candidates = self.candidates;
        let set = Listed(self.pairing.set);
        let points = self.pairing.points;
        let numbers = self.numbers;
        let found = self.found;
        write!(
            f,
            "candidates {candidates}\nset{set}\npoints {points}\n{numbers}\n{found}"
        )
    }
}
