// Why no pairing is reported.
ghost use Rattle.std.specs.Prelude.{◌≡◌, Some};
ghost use Rattle.reports.specs.declared.refusal.Refusal.TheVariants.{Text, Table};
ghost use Rattle.texts.specs.declared.faults.TextFault.TheVariants.{Memory};
ghost use Rattle.reports.specs.Lines.{reason_of, refusal_line};

use sheets::table::TableFault;
use std::alloc::AllocError;
use std::fmt;
use texts::faults::TextFault;

// The text holds no table, or its table is no sheet.
#[derive(Debug, Drop, PartialEq, Eq)]
pub enum Refusal {
    Text(TextFault),
    Table(TableFault),
}

impl From<TextFault> for Refusal {
    ghost from_gives = { λ fault r. r ≡ Text fault };

    fn from(fault: TextFault) -> Self {
        Self::Text(fault)
    }
}

impl From<TableFault> for Refusal {
    ghost from_gives = { λ fault r. r ≡ Table fault };

    fn from(fault: TableFault) -> Self {
        Self::Table(fault)
    }
}

// A caller that allocates beside the report has no memory.
impl From<AllocError> for Refusal {
    ghost from_gives = { λ _ r. r ≡ Text Memory };

    fn from(_error: AllocError) -> Self {
        Self::Text(TextFault::Memory)
    }
}

// What an accepted table would have, in this program's words: a sheet's fault is told by its number.
fn reason(fault: TableFault) -> &'static str
    ensures { result.now ≡ reason_of fault }
{
    match fault {
        TableFault::Size => "a sheet has 1 to 256 candidates",
        TableFault::Entries => "n candidates have n(n - 1)/2 entries",
    }
}

impl fmt::Display for Refusal {
    ghost output = { λ refusal. Some (refusal_line refusal) };

    fn fmt<W: fmt::Write>(&self, f: &mut fmt::Formatter<W>) -> fmt::Result {
        match self {
            Refusal::Text(fault) => write!(f, "{fault}"),
            Refusal::Table(fault) => {
                let number = fault.number();
                let reason = reason(*fault);
                write!(f, "refused {number}: {reason}")
            }
        }
    }
}
