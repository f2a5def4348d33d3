// What is reported of a sheet: how many candidates it has, and what a search finds.
ghost use Rattle.list_reports.specs.Lines.{report_lines};
ghost use Rattle.list_reports.specs.Reports.{Reports};
ghost use Rattle.std.specs.Prelude.{Some};

use dense::sheet::DenseSheet;
use findings::found::{Found, search_for, yes_or_no};
use findings::listed::Listed;
use rules::colour::Colour;
use rules::lesser::Lesser;
use rules::path::Path;
use sheets::sheet::Sheet;
use std::fmt;

#[derive(Clone, Copy)]
pub struct Report {
    pub candidates: usize,
    pub found: Found,
}

impl Report {
    // By the lesser of colour and path, in 50 grants of 1,000,000 nodes at most. The search asks a dense copy, which is
    // faster and means the same.
    pub fn of<S: Sheet>(sheet: &S) -> Report
        ensures { Reports (S.Sheet.meaning sheet.now) result }
    {
        let candidates = sheet.size();
        let found = search_for(DenseSheet::of(sheet), Lesser(Colour, Path), 50);
        Report { candidates, found }
    }
}

impl fmt::Display for Report {
    ghost output = { λ report. Some (report_lines report) };

    fn fmt<W: fmt::Write>(&self, f: &mut fmt::Formatter<W>) -> fmt::Result {
        let candidates = self.candidates;
        // The lines of `Found` speak of the search; here what it found is the pairing.
        let set = Listed(self.found.pairing.set);
        let points = self.found.pairing.points;
        let ceiling = self.found.ceiling;
        let finished = yes_or_no(self.found.finished);
        let nodes = self.found.nodes;
        write!(
            f,
            "candidates {candidates}\nset{set}\npoints {points}\nceiling {ceiling}\nfinished {finished} nodes {nodes}"
        )
    }
}
