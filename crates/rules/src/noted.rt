// A number noted for each candidate.
ghost use Rattle.std.specs.Prelude.{◌≡◌, ◌+◌, ◌^◌, ◌<◌};
ghost use Rattle.candidates.specs.Members.{members};
ghost use Rattle.rules.specs.Greatest.{greatest};
ghost use Rattle.rules.specs.Least.{least_of};
ghost use Rattle.rules.specs.Noted.{at, noted};

use candidates::set::CandidateSet;

// The number of candidate v stands at place v, in an array of fixed size, since a rule may not run out of memory. Members
// of sets are below 256; any other place has no number.
#[derive(Drop)]
pub(crate) struct Noted([u64; 256]);

impl Noted {
    pub(crate) fn zeros() -> Self
        ensures { at result ≡ (λ _. 0) }
    {
        Noted([0; 256])
    }

    pub(crate) fn get(&self, v: usize) -> u64
        requires { v < 256 }
        ensures { result ≡ at self.now v }
    {
        self.0[v]
    }

    pub(crate) fn note(&mut self, v: usize, number: u64)
        requires { v < 256 }
        ensures { at self.new ≡ noted v number (at self.old) }
    {
        self.0[v] = number;
    }

    pub(crate) fn add(&mut self, v: usize, more: u64)
        requires place { v < 256 }
        requires room { at self.old v + more < 2 ^ 64 }
        ensures { at self.new ≡ noted v (at self.old v + more) (at self.old) }
    {
        self.0[v] += more;
    }

    // The greatest number of a member, 0 where the set is empty.
    pub(crate) fn greatest(&self, set: CandidateSet) -> u64
        ensures { result ≡ greatest (at self.now) (members set) }
    {
        set.iter().map(|v| self.get(v)).max().unwrap_or(0)
    }

    // The member with the least number, the lowest on a tie.
    pub(crate) fn least(&self, set: CandidateSet) -> Option<usize>
        ensures { result ≡ least_of (at self.now) (members set) }
    {
        set.iter().min_by_key(|v| self.get(*v))
    }
}
