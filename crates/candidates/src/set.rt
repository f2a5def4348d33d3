// A candidate set and what can be done with it. Every number is accepted; those from 256 on are never members.
ghost use Rattle.std.specs.Prelude.{◌≡◌, ℕ, ◌<◌, min, true, false, not, ◌&&◌, ◌||◌, ltb, List, [], length, if◌then◌else◌, Decides, ◌==◌, nat_lt, nat_eq};
ghost use Rattle.candidates.specs.Members.{bit, has, members};
ghost use Rattle.candidates.specs.Sets.{is_in, counting, inserted, removed, common, without, least};
ghost use Rattle.std.specs.Cmp.Lexicographic.{pointwise};
ghost use Rattle.std.specs.Cmp.Rules.{comparing};
ghost use Rattle.std.specs.Ordering.{on};
ghost use Rattle.std.proofs.Common.{rules};

use std::array;

// 256 yes-or-no marks, 64 to a word: candidate k is mark k % 64 of word k / 64.
#[derive(Clone, Copy)]
pub struct CandidateSet {
    pub(crate) words: [u64; 4],
}

// A word with its first n marks.
fn low_marks(n: usize) -> u64
    ensures { (k : ℕ) → k < 64 → bit result k ≡ nat_lt k n }
{
    if n < 64 { (1 << n) - 1 } else { u64::MAX }
}

impl CandidateSet {
    pub fn empty() -> Self
        ensures marks { (k : ℕ) → has result k ≡ false }
        ensures list { members result ≡ [] }
    {
        CandidateSet { words: [0; 4] }
    }

    // The candidates below n; all 256 where n is more.
    pub fn first(n: usize) -> Self
        ensures marks { (k : ℕ) → has result k ≡ (nat_lt k n && nat_lt k 256) }
        ensures list { members result ≡ counting 0 (min n 256) }
    {
        CandidateSet {
            words: array::from_fn(|i| low_marks(n.saturating_sub(64 * i))),
        }
    }

    pub fn contains(self, k: usize) -> bool
        ensures { result ≡ has self k }
    {
        k < 256 && self.words[k / 64] >> (k % 64) & 1 == 1
    }

    // The set with v added; a number from 256 on changes nothing.
    pub fn with(mut self, v: usize) -> Self
        ensures marks { (k : ℕ) → has result k ≡ (has self k || (k == v && nat_lt k 256)) }
        ensures list { members result ≡ (if ltb v 256 then inserted v (members self) else members self) }
    {
        if v < 256 {
            self.words[v / 64] |= 1 << (v % 64);
        }
        self
    }

    pub fn without(mut self, v: usize) -> Self
        ensures marks { (k : ℕ) → has result k ≡ (has self k && not (k == v)) }
        ensures list { members result ≡ removed v (members self) }
    {
        if v < 256 {
            self.words[v / 64] &= !(1 << (v % 64));
        }
        self
    }

    // Those in both. Here and in minus the words are taken apart: a closure over places reads no plainer.
    pub fn meet(self, other: CandidateSet) -> Self
        ensures marks { (k : ℕ) → has result k ≡ (has self k && has other k) }
        ensures list { members result ≡ common (members self) (members other) }
    {
        let [a, b, c, d] = self.words;
        let [p, q, r, s] = other.words;
        CandidateSet {
            words: [a & p, b & q, c & r, d & s],
        }
    }

    // Those in self and not in other.
    pub fn minus(self, other: CandidateSet) -> Self
        ensures marks { (k : ℕ) → has result k ≡ (has self k && not (has other k)) }
        ensures list { members result ≡ without (members self) (members other) }
    {
        let [a, b, c, d] = self.words;
        let [p, q, r, s] = other.words;
        CandidateSet {
            words: [a & !p, b & !q, c & !r, d & !s],
        }
    }

    pub fn is_empty(self) -> bool
        ensures { Decides result (members self ≡ []) }
    {
        self.lowest().is_none()
    }

    // The lowest member; an empty set has none. (`as` here and below: `usize` has no `From<u32>`.)
    pub fn lowest(self) -> Option<usize>
        ensures { result ≡ least (members self) }
    {
        for (i, word) in self.words.iter().enumerate() {
            if *word != 0 {
                return Some(64 * i + word.trailing_zeros() as usize);
            }
        }
        None
    }

    pub fn count(self) -> usize
        ensures { result ≡ length (members self) }
    {
        self.words
            .iter()
            .map(|word| word.count_ones() as usize)
            .sum()
    }
}

impl PartialEq for CandidateSet {
    // Sets with the same members are the same value.
    ghost eq = { on members (pointwise nat_eq) };

    ghost laws = { Prim.search (comparing, rules) };

    fn eq(&self, other: &CandidateSet) -> bool
        ensures value { result ≡ on members (pointwise nat_eq) self.now other.now }
        ensures list { Decides result (members self.now ≡ members other.now) }
        ensures same { Decides result (self.now ≡ other.now) }
    {
        // a derived equality would be of words, and the promise is of members; each word is read, as only that tells its range
        let [a, b, c, d] = self.words;
        let [p, q, r, s] = other.words;
        (a == p) & (b == q) & (c == r) & (d == s)
    }
}
