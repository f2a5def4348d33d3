// A list that is read and written again, and a sheet that is written and read back.
ghost use Rattle.std.specs.Prelude.{◌≡◌};
ghost use Rattle.list_writer.specs.Rounds.{ReadBack, copy_judged, buffer_copied};

use crate::faults::{CopyFault, WriteFault};
use crate::writing::write_list;
use list_reader::sheet::ListSheet;
use sheets::sheet::Sheet;

// Reads a list and writes it again: the same bytes.
pub fn copy_list(bytes: &[u8], buffer: &mut [u8]) -> Result<usize, CopyFault>
    ensures value { result ≡ copy_judged bytes.now buffer.old }
    ensures after { buffer.new ≡ buffer_copied bytes.now buffer.old }
{
    let sheet = ListSheet::new(bytes)?;
    let count = write_list(&sheet, buffer)?;
    Ok(count)
}

// Writes a sheet and reads it back: a sheet that answers alike.
pub fn read_back<'a, S: Sheet>(sheet: &S, buffer: &'a mut [u8]) -> Result<ListSheet<'a>, WriteFault>
    ensures { ReadBack (S.Sheet.meaning sheet.now) buffer.old result }
{
    let count = write_list(sheet, buffer)?;
    // What was written is accepted.
    let Ok(list) = ListSheet::new(&buffer[..count]) else {
        unreachable!()
    };
    Ok(list)
}
