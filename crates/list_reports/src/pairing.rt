// The whole of the program but reading and printing.
ghost use Rattle.list_reports.specs.Paired.{Paired, Settled};

use crate::report::Report;
use blocks::faults::ProgramFault;
use list_reader::sheet::read_input;

// The report on the list that the bytes hold, or the first fault.
pub fn pair(bytes: &[u8]) -> Result<Report, ProgramFault>
    ensures answer { Paired bytes.now result }
    ensures settled { Settled bytes.now }
{
    let sheet = read_input(bytes)?;
    Ok(Report::of(&sheet))
}
