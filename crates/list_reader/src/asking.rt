// The questions that are put to a list: block by block, and then record by record.
ghost use Rattle.std.specs.Prelude.{◌≡◌};
ghost use Rattle.sheets.specs.Refusals.{first_no};
ghost use Rattle.blocks.specs.Format.{block as block_of};
ghost use Rattle.blocks.specs.Questions.{block_questions, record_questions, judged};

use crate::records::Records;
use blocks::bytes::byte_at;
use blocks::checks::{check_fill, check_seal};
use blocks::faults::ListFault;

impl Records<'_> {
    // Check, place, size, count and unused bytes of the block at a place.
    fn check_block(&self, place: usize, block: &[u8]) -> Result<(), ListFault>
        ensures { block.now ≡ block_of self.now.bytes.now place → result ≡ first_no (block_questions self.now.bytes.now place) }
    {
        check_seal(block, place)?;
        if byte_at(block, 3) != byte_at(self.bytes, 3) {
            return Err(ListFault::Size { block: place });
        }
        check_fill(block, place, self.bytes.len() / 512)?;
        Ok(())
    }

    // Pair, order and points of record j.
    #[tactic(auto, using(std::proofs::lemmas::Bool::Decides::nat_tests), unfolding(blocks::specs::Questions::record_questions))]
    fn check_record(&self, j: usize) -> Result<(), ListFault>
        ensures { result ≡ first_no (record_questions self.now.bytes.now j) }
    {
        let block = j / 126;
        let record = j % 126;
        let key = self.key(j);
        let [u, v] = key.to_le_bytes();
        if u >= v || v > byte_at(self.bytes, 3) {
            return Err(ListFault::Pair { block, record });
        }
        if j > 0 && key <= self.key(j - 1) {
            return Err(ListFault::Order { block, record });
        }
        if self.points(j) >= 65535 {
            return Err(ListFault::Points { block, record });
        }
        Ok(())
    }
}

// All questions that are put to a list.
pub fn check_list(bytes: &[u8]) -> Result<(), ListFault>
    ensures { result ≡ judged bytes.now }
{
    if !(512..=133120).contains(&bytes.len()) || bytes.len() % 512 != 0 {
        return Err(ListFault::Length);
    }
    let records = Records { bytes };
    for (place, block) in bytes.chunks_exact(512).enumerate() {
        records.check_block(place, block)?;
    }
    // By place: no slice holds the records, 126 to a block.
    for j in 0..records.count() {
        records.check_record(j)?;
    }
    Ok(())
}
