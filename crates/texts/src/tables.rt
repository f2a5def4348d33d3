// Tables of numbers, and how one is read from a text.
ghost use Rattle.texts.specs.Faithful.{Faithful};
ghost use Rattle.texts.specs.Reading.{numbers, read, Answers};

use crate::faults::TextFault;
use crate::numbers::read_numbers;
use std::alloc::Global;

#[derive(Debug, Drop, PartialEq)]
pub struct Table {
    pub size: usize,
    pub entries: Vec<u16>,
}

// Reads the size and then the entries, in any layout.
pub fn read_table(heap: Global, text: &[u8]) -> Result<Table, TextFault>
    ensures value { Answers (read text.now) numbers result }
    ensures faithful { Faithful text.now result }
{
    let mut entries = read_numbers(heap, text)?;
    if entries.is_empty() {
        return Err(TextFault::Nothing);
    }
    let size = usize::from(entries.remove(0));
    Ok(Table { size, entries })
}
