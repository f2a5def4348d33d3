// A sheet read from a table of 16-bit entries.
ghost use Rattle.std.specs.Prelude.{◌≡◌, ◌≤◌, if◌then◌else◌, Some, None, Ok, Err};
ghost use Rattle.sheets.specs.Tables.{table, table_fit, entry, table_judged, table_number};

use crate::sheet::{Points, Sheet};

// The entry that says that two candidates don't fit.
const APART: u16 = 65535;

#[derive(Clone, Copy)]
pub struct TableSheet<'a> {
    size: usize,
    entries: &'a [u16],
    ghost least: { 1 ≤ size },
    ghost most: { size ≤ 256 },
}

// Why a table is refused.
#[derive(Clone, Copy, PartialEq, Eq, Debug)]
pub enum TableFault {
    Size,
    Entries,
}

impl TableFault {
    // The number that the refusal is told by.
    pub fn number(self) -> u16
        ensures { result ≡ table_number self }
    {
        match self {
            TableFault::Size => 1,
            TableFault::Entries => 2,
        }
    }
}

impl<'a> TableSheet<'a> {
    ghost use Rattle.sheets.specs.TableSheets.{meaning_of};

    // The sheet with n candidates whose entry for u < v stands at v(v - 1)/2 + u.
    pub fn new(n: usize, entries: &'a [u16]) -> Result<TableSheet<'a>, TableFault>
        ensures { elim result [ Ok s ↦ (table_judged n entries.now ≡ Ok tt) × (meaning_of s ≡ table n entries.now) | Err e ↦ table_judged n entries.now ≡ Err e ] }
    {
        if !(1..=256).contains(&n) {
            return Err(TableFault::Size);
        }
        if entries.len() != n * (n - 1) / 2 {
            return Err(TableFault::Entries);
        }
        Ok(TableSheet { size: n, entries })
    }

    // The points of two that fit.
    fn points_of(&self, u: usize, v: usize) -> Option<Points>
        ensures { result ≡ (if (meaning_of self.now).fit u v then Some ((meaning_of self.now).points u v) else None) }
    {
        let low = u.min(v);
        let high = u.max(v);
        if low == high || high >= self.size {
            return None;
        }
        let place = high * (high - 1) / 2 + low;
        let entry = self.entries.get(place).filter(|entry| **entry < APART)?;
        Some(Points::from(*entry))
    }
}

impl Sheet for TableSheet<'_> {
    ghost use Rattle.sheets.specs.TableSheets.{meaning_of, table-lawful};

    ghost meaning = { meaning_of };

    ghost lawful = { table-lawful };

    fn size(&self) -> usize {
        self.size
    }

    // A line each over `points_of`, as in the other makes: a trait for two lines would ask more of whoever writes a sheet.
    fn fits(&self, u: usize, v: usize) -> bool {
        self.points_of(u, v).is_some()
    }

    fn points(&self, u: usize, v: usize) -> Points {
        self.points_of(u, v).unwrap_or(0)
    }
}
