// Why a strike or a restore is refused.
ghost use Rattle.std.specs.Prelude.{◌≡◌};
ghost use Rattle.striking.specs.Judged.{number_of};

#[derive(Clone, Copy, PartialEq, Eq, Debug)]
pub enum StrikeFault {
    // No candidate of the sheet.
    Outside,
    // A strike of one that is struck.
    AlreadyStruck,
    // A restore of one that is not struck.
    NotStruck,
}

impl StrikeFault {
    // The number that the refusal is told by.
    pub fn number(self) -> u16
        ensures { result ≡ number_of self }
    {
        match self {
            StrikeFault::Outside => 21,
            StrikeFault::AlreadyStruck => 22,
            StrikeFault::NotStruck => 23,
        }
    }
}
