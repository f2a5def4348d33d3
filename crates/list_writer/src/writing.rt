// Writing a list into a lent buffer, one block after another.
ghost use Rattle.std.specs.Prelude.{◌≡◌, ◌≤◌, length, take, drop};
ghost use Rattle.blocks.specs.Format.{blocks_for, content, records, sealed};
ghost use Rattle.list_writer.specs.Buffers.{buffer_after, write_judged};
ghost use Rattle.list_writer.specs.Records.{to_come};
ghost use Rattle.list_writer.specs.Rounds.{RoundTrip};
ghost use Rattle.list_writer.specs.Worked.{WorkedLists};

use crate::faults::WriteFault;
use crate::records::{Records, count_records};
use blocks::checks::check_of;
use sheets::sheet::Sheet;

// The block at a place: the next records, 126 at most, and zeros behind them. The byte `low` is n − 1, and `left` counts the
// records that are left, so that none is looked for behind the last.
fn next_block<S: Sheet>(place: u16, low: u8, left: usize, records: &mut Records<'_, S>) -> [u8; 512]
    requires { left ≡ length (to_come S.Sheet records.old) }
    ensures block { result ≡ sealed (content low place (take 126 (to_come S.Sheet records.old))) }
    ensures rest { to_come S.Sheet records.new ≡ drop 126 (to_come S.Sheet records.old) }
{
    let mut block = [0; 512];
    block[..2].copy_from_slice(&place.to_le_bytes());
    block[3] = low;
    // Of `records.take(126)` no proof would know what the walk has left afterwards.
    for i in 0..left.min(126) {
        let Some(record) = records.next() else { break };
        block[2] += 1;
        block[4 + 4 * i..8 + 4 * i].copy_from_slice(&record.to_bytes());
    }
    // `as`, since a check fits four bytes.
    let check = check_of(&block) as u32;
    block[508..].copy_from_slice(&check.to_le_bytes());
    block
}

// How many blocks so many records take.
fn block_count(records: usize) -> usize
    requires { records ≤ 32640 }
    ensures value { result ≡ blocks_for records }
    ensures bound { result ≤ 260 }
{
    records.div_ceil(126).max(1)
}

// Writes the list of a sheet, in as few blocks as possible.
pub fn write_list<S: Sheet>(sheet: &S, buffer: &mut [u8]) -> Result<usize, WriteFault>
    ensures value { result ≡ write_judged (S.Sheet.meaning sheet.now) buffer.old }
    ensures after { buffer.new ≡ buffer_after (S.Sheet.meaning sheet.now) buffer.old }
    ensures round { RoundTrip (S.Sheet.meaning sheet.now) }
    ensures worked { WorkedLists }
{
    let count = count_records(sheet);
    let blocks = block_count(count);
    if buffer.len() < 512 * blocks {
        return Err(WriteFault::Short);
    }
    // `as` here and below: n - 1 is a byte, and there are 260 blocks at most.
    let low = (sheet.size() - 1) as u8;
    let mut records = Records::of(sheet);
    for place in 0..blocks {
        let block = next_block(place as u16, low, count - 126 * place, &mut records);
        // By place: after `chunks_exact_mut` no proof knows the bytes.
        buffer[512 * place..512 * place + 512].copy_from_slice(&block);
    }
    Ok(512 * blocks)
}
