// Why a list is not written, and why it is not copied.
ghost use Rattle.std.specs.Prelude.{◌≡◌};
ghost use Rattle.list_writer.specs.Buffers.{write_number};
ghost use Rattle.list_writer.specs.declared.faults.CopyFault.TheVariants.{List as HeldList, Write as HeldWrite};

use blocks::faults::ListFault;

#[derive(Clone, Copy, PartialEq, Eq, Debug)]
pub enum WriteFault {
    Short,
}

impl WriteFault {
    pub fn number(self) -> u16
        ensures { result ≡ write_number self }
    {
        match self {
            WriteFault::Short => 51,
        }
    }
}

// A copy is refused as its reading or as its writing is.
#[derive(Clone, Copy, PartialEq, Eq, Debug)]
pub enum CopyFault {
    List(ListFault),
    Write(WriteFault),
}

impl From<ListFault> for CopyFault {
    ghost from_gives = { λ e r. r ≡ HeldList e };

    fn from(fault: ListFault) -> Self {
        Self::List(fault)
    }
}

impl From<WriteFault> for CopyFault {
    ghost from_gives = { λ e r. r ≡ HeldWrite e };

    fn from(fault: WriteFault) -> Self {
        Self::Write(fault)
    }
}
