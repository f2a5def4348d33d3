// From a text to the pairing of the table that it holds.
ghost use Rattle.reports.specs.Paired.{Paired};

use crate::refusal::Refusal;
use crate::report::Report;
use sheets::table::TableSheet;
use std::alloc::Global;
use texts::tables::read_table;

// Reads the table, makes a sheet of it and reports on it; the first fault decides.
pub fn paired(heap: Global, text: &[u8]) -> Result<Report, Refusal>
    ensures { Paired text.now result }
{
    let table = read_table(heap, text)?;
    let sheet = TableSheet::new(table.size, table.entries.as_slice())?;
    Ok(Report::of(sheet))
}
