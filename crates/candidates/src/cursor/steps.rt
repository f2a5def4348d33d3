// The start of a walk and its steps.
ghost use Rattle.std.specs.Prelude.{◌≡◌};
ghost use Rattle.candidates.specs.Members.{members};
ghost use Rattle.candidates.specs.Walk.{remaining};
ghost use Rattle.std.specs.Iterator.{YieldsFirst, item_count};

use crate::cursor::Members;
use crate::set::CandidateSet;

impl CandidateSet {
    // The members, upwards.
    pub fn iter(self) -> Members
        ensures { remaining result ≡ members self }
    {
        Members {
            words: self.words,
            place: 0,
            word: self.words[0],
        }
    }
}

impl Iterator for Members {
    type Item = usize;

    ghost next_gives = { YieldsFirst remaining };

    ghost remaining = { item_count remaining };

    fn next(&mut self) -> Option<usize> {
        // Not by `lowest` and `without`, which make a search take 1.85 times as long. The current word stands apart: with what is left
        // kept as a set, each step writes to memory, and goes over the words before. `as`: the library has no `From` of a u32.
        while self.word == 0 {
            if self.place == 3 {
                return None;
            }
            self.place += 1;
            self.word = self.words[self.place];
        }
        let v = 64 * self.place + self.word.trailing_zeros() as usize;
        self.word &= self.word - 1;
        Some(v)
    }
}
