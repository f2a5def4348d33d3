// A sheet that answers from the bytes of a block list.
ghost use Rattle.std.specs.Prelude.{◌≡◌, ◌≤◌, Ok, Err};
ghost use Rattle.blocks.specs.Format.{known, look, meaning_of, records_of, size_of};
ghost use Rattle.blocks.specs.Questions.{judged, program_judged};

use crate::asking::check_list;
use crate::records::Records;
use blocks::bytes::byte_at;
use blocks::faults::{ListFault, ProgramFault};
use sheets::sheet::{Points, Sheet};

#[derive(Clone, Copy)]
pub struct ListSheet<'a> {
    records: Records<'a>,
    ghost accepted: { judged records.bytes.now ≡ Ok tt },
    ghost small: { size_of records.bytes.now ≤ 256 },
}

impl<'a> ListSheet<'a> {
    ghost use Rattle.list_reader.specs.Sheets.{sheet_of};

    // The sheet that the bytes hold.
    pub fn new(bytes: &'a [u8]) -> Result<ListSheet<'a>, ListFault>
        ensures { elim result [ Ok s ↦ (judged bytes.now ≡ Ok tt) × (sheet_of s ≡ meaning_of bytes.now) | Err e ↦ judged bytes.now ≡ Err e ] }
    {
        check_list(bytes)?;
        Ok(ListSheet {
            records: Records { bytes },
        })
    }

    // The points of two that fit.
    fn points_of(&self, u: usize, v: usize) -> Option<u16>
        ensures { result ≡ known (size_of self.now.records.bytes.now) (λ key. look key (records_of self.now.records.bytes.now)) u v }
    {
        let low = u.min(v);
        let high = u.max(v);
        if low >= high || high >= self.size() {
            return None;
        }
        self.records.find(low + 256 * high)
    }
}

impl Sheet for ListSheet<'_> {
    ghost use Rattle.list_reader.specs.Sheets.{list_lawful, sheet_of};

    ghost meaning = { sheet_of };

    ghost lawful = { list_lawful };

    fn size(&self) -> usize {
        usize::from(byte_at(self.records.bytes, 3)) + 1
    }

    fn fits(&self, u: usize, v: usize) -> bool {
        self.points_of(u, v).is_some()
    }

    fn points(&self, u: usize, v: usize) -> Points {
        self.points_of(u, v).map_or(0, Points::from)
    }
}

// What a program is given: at most 65,536 bytes, and a list. (Its clause speaks of the bytes, since only an `impl` here
// can import what a sheet means.)
pub fn read_input(bytes: &[u8]) -> Result<ListSheet<'_>, ProgramFault>
    ensures { elim result [ Ok s ↦ (program_judged bytes.now ≡ Ok tt) × (meaning_of s.records.bytes.now ≡ meaning_of bytes.now) | Err e ↦ program_judged bytes.now ≡ Err e ] }
{
    if bytes.len() > 65536 {
        return Err(ProgramFault::Long);
    }
    let sheet = ListSheet::new(bytes)?;
    Ok(sheet)
}
