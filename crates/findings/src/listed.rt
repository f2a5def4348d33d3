// The members of a set in a line.
ghost use Rattle.std.specs.Prelude.{Some};
ghost use Rattle.candidates.specs.Members.{members};
ghost use Rattle.findings.specs.Lines.{listed};

use candidates::set::CandidateSet;
use std::fmt;

// A set as its members, each after a blank.
#[derive(Clone, Copy)]
pub struct Listed(pub CandidateSet);

impl fmt::Display for Listed {
    ghost output = { λ list. Some (listed (members list.0)) };

    fn fmt<W: fmt::Write>(&self, f: &mut fmt::Formatter<W>) -> fmt::Result {
        for v in self.0.iter() {
            write!(f, " {v}")?;
        }
        Ok(())
    }
}
