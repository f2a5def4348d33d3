// Why a text is refused.
ghost use Rattle.std.specs.Prelude.{◌≡◌, Some};
ghost use Rattle.texts.specs.declared.faults.TextFault.TheVariants.{Memory};
ghost use Rattle.texts.specs.Lines.{line};

use std::alloc::AllocFailed;
use std::fmt;

// The first thing that is wrong. A place counts the bytes of the text from 0.
#[derive(Debug, Drop, PartialEq, Eq)]
pub enum TextFault {
    // The byte is neither a digit nor white space.
    Byte { place: usize },
    // The digit takes its number past 65,535.
    Large { place: usize },
    // There is no number at all.
    Nothing,
    // There is no memory for the numbers.
    Memory,
}

impl From<AllocFailed<u16>> for TextFault {
    ghost from_gives = { λ _ r. r ≡ Memory };

    fn from(_number: AllocFailed<u16>) -> Self {
        Self::Memory
    }
}

impl fmt::Display for TextFault {
    ghost output = { λ fault. Some (line fault) };

    fn fmt<W: fmt::Write>(&self, f: &mut fmt::Formatter<W>) -> fmt::Result {
        match self {
            TextFault::Byte { place } => {
                write!(
                    f,
                    "refused text byte {place}: neither a digit nor white space"
                )
            }
            TextFault::Large { place } => {
                write!(f, "refused text byte {place}: a number above 65535")
            }
            TextFault::Nothing => write!(f, "refused text: no number"),
            TextFault::Memory => write!(f, "refused text: no memory"),
        }
    }
}
