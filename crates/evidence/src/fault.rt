// Why evidence is refused.
ghost use Rattle.std.specs.Prelude.{◌≡◌};
ghost use Rattle.evidence.specs.Judged.{number_of};

#[derive(Clone, Copy, PartialEq, Eq, Debug)]
pub enum EvidenceFault {
    // Not 1 to 256 candidates.
    Candidates,
    // A meter whose serial is not above the one before.
    Serial { meter: usize },
    // A candidate that names a place past the end of a list.
    Place { candidate: usize },
}

impl EvidenceFault {
    // The number that the refusal is told by.
    pub fn number(self) -> u16
        ensures { result ≡ number_of self }
    {
        match self {
            EvidenceFault::Candidates => 1,
            EvidenceFault::Serial { .. } => 3,
            EvidenceFault::Place { .. } => 4,
        }
    }
}
