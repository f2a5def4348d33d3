// The records of a list, by their places in it: every block but the last has 126. What lies past the end is 0.
ghost use Rattle.std.specs.Prelude.{◌≡◌, ◌+◌, ◌-◌, ◌*◌, ◌/◌, ◌%◌, ◌^◌, min};
ghost use Rattle.blocks.specs.Format.{record_at, record_count};
ghost use Rattle.list_reader.specs.Halving.{found};

use blocks::bytes::{byte_at, u16_at};

#[derive(Clone, Copy)]
pub(crate) struct Records<'a> {
    pub(crate) bytes: &'a [u8],
}

// Where record j begins. A place past the top of `usize` is past the end.
fn start(j: usize) -> usize
    ensures { result ≡ min (512 * (j / 126) + (4 + 4 * (j % 126))) (2 ^ 64 - 1) }
{
    (j / 126)
        .saturating_mul(512)
        .saturating_add(4 + 4 * (j % 126))
}

impl Records<'_> {
    pub(crate) fn count(&self) -> usize
        ensures { result ≡ record_count self.now.bytes.now }
    {
        let full = (self.bytes.len() / 512).saturating_sub(1);
        126 * full + usize::from(byte_at(self.bytes, 512 * full + 2))
    }

    pub(crate) fn key(&self, j: usize) -> u16
        ensures { result ≡ (record_at self.now.bytes.now j).key }
    {
        u16_at(self.bytes, start(j))
    }

    pub(crate) fn points(&self, j: usize) -> u16
        ensures { result ≡ (record_at self.now.bytes.now j).points }
    {
        u16_at(self.bytes, start(j).saturating_add(2))
    }

    // The points in the record with a key: the records are in order, so each turn halves what is left.
    pub(crate) fn find(&self, key: usize) -> Option<u16>
        ensures { result ≡ found self.now.bytes.now key }
    {
        // By hand, since no slice holds the records: each block has a head and a check.
        let mut low = 0;
        let mut high = self.count();
        while low < high {
            let middle = low + (high - low) / 2;
            let here = usize::from(self.key(middle));
            // Two tests: with a `match` on `cmp` a question takes a fifth longer.
            if here == key {
                return Some(self.points(middle));
            }
            if here < key {
                low = middle + 1;
            } else {
                high = middle;
            }
        }
        None
    }
}
