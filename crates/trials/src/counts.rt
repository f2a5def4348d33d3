// Counts of what was found.
use std::fmt;

// How often something was so.
#[derive(Clone, Copy, Default)]
pub(crate) struct Count(u32);

impl Count {
    pub(crate) fn note(&mut self, so: bool) {
        self.0 = self.0.wrapping_add(u32::from(so));
    }
}

impl fmt::Display for Count {
    fn fmt<W: fmt::Write>(&self, f: &mut fmt::Formatter<W>) -> fmt::Result {
        let count = self.0;
        write!(f, "{count}")
    }
}
