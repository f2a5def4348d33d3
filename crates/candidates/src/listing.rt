// The members of a set as a list in a buffer.
ghost use Rattle.std.specs.Prelude.{◌≡◌, ◌++◌, length, drop, if◌then◌else◌, Some, None, nat_le};
ghost use Rattle.candidates.specs.Members.{members};

use crate::set::CandidateSet;

impl CandidateSet {
    // Writes the members upwards into the front of the buffer, and answers how many there are. A buffer that is too
    // short is left as it is.
    pub fn write_to(self, buffer: &mut [usize]) -> Option<usize>
        ensures value { result ≡ (if nat_le (length (members self)) (length buffer.old) then Some (length (members self)) else None) }
        ensures after { buffer.new ≡ (if nat_le (length (members self)) (length buffer.old) then members self ++ drop (length (members self)) buffer.old else buffer.old) }
    {
        let count = self.count();
        if count > buffer.len() {
            return None;
        }
        // by place: what was written through a lent slot is not known once the borrow is over
        for (place, v) in self.iter().enumerate() {
            buffer[place] = v;
        }
        Some(count)
    }
}
