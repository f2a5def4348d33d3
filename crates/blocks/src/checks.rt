// The questions that are put to one block.
ghost use Rattle.std.specs.Prelude.{◌≡◌, ◌-◌};
ghost use Rattle.sheets.specs.Refusals.{first_no};
ghost use Rattle.blocks.specs.Bytes.{part, all_zero};
ghost use Rattle.blocks.specs.Format.{check};
ghost use Rattle.blocks.specs.Questions.{seal_questions, count_right, fill_questions};

use crate::bytes::{byte_at, u16_at, u32_at};
use crate::faults::BlockFault;

// The sum of (i + 1) × byte i for i from 0 to 507.
pub fn check_of(block: &[u8]) -> usize
    ensures { result ≡ check block.now }
{
    // No `map` and `sum`: nothing is known of a closure whose product might not fit.
    let mut sum = 0;
    for (i, byte) in block.iter().take(508).enumerate() {
        sum += (i + 1) * usize::from(*byte);
    }
    sum
}

// Check right? Place right?
pub fn check_seal(block: &[u8], place: usize) -> Result<(), BlockFault>
    ensures { result ≡ first_no (seal_questions place block.now) }
{
    // `as`, since `usize` has no `From<u32>`.
    if u32_at(block, 508) as usize != check_of(block) {
        return Err(BlockFault::Check { block: place });
    }
    if usize::from(u16_at(block, 0)) != place {
        return Err(BlockFault::Place { block: place });
    }
    Ok(())
}

// A full block if another follows, else 126 records at most, and none only in a block alone.
fn count_right(blocks: usize, place: usize, count: usize) -> bool
    ensures { result ≡ count_right blocks place count }
{
    if blocks.saturating_sub(place) > 1 {
        count == 126
    } else {
        count <= 126 && (place == 0 || count >= 1)
    }
}

// Whether all bytes from a place on are zero, up to the check.
fn zero_from(block: &[u8], start: usize) -> bool
    ensures { result ≡ all_zero (part (508 - start) start block.now) }
{
    block.iter().take(508).skip(start).all(|byte| *byte == 0)
}

// Count right, in the block at a place of so many? Unused record bytes zero?
pub fn check_fill(block: &[u8], place: usize, blocks: usize) -> Result<(), BlockFault>
    ensures { result ≡ first_no (fill_questions blocks place block.now) }
{
    let count = usize::from(byte_at(block, 2));
    if !count_right(blocks, place, count) {
        return Err(BlockFault::Count { block: place });
    }
    if !zero_from(block, 4 + 4 * count) {
        return Err(BlockFault::Unused { block: place });
    }
    Ok(())
}
