// What is written of some sheets, read back and copied.
use crate::copies::{copy_list, read_back};
use crate::faults::WriteFault;
use crate::writing::write_list;
use blocks::checks::check_of;
use list_reader::asking::check_list;
use sheets::sheet::Sheet;
use sheets::table::TableSheet;
use std::test::Fail;

const TABLE_A: [u16; 6] = [5, 7, 65535, 1, 9, 4];

#[test]
fn sheet_a_as_a_list(rt: HostRuntime) -> Result<(), Fail> {
    let sheet = TableSheet::new(4, &TABLE_A)?;
    let mut buffer = [7u8; 600];
    assert_eq!(rt; write_list(&sheet, &mut buffer)?, 512);
    let start = [
        0u8, 0, 5, 3, 0, 1, 5, 0, 0, 2, 7, 0, 0, 3, 1, 0, 1, 3, 9, 0, 2, 3, 4, 0, 0,
    ];
    assert_eq!(rt; &buffer[0..25], &start[..]);
    assert_eq!(rt; check_of(&buffer), 664);
    assert_eq!(rt; &buffer[507..514], &[0u8, 152, 2, 0, 0, 7, 7][..]);
    Ok(())
}

#[test]
fn short_buffer(rt: HostRuntime) -> Result<(), Fail> {
    let sheet = TableSheet::new(4, &TABLE_A)?;
    let mut buffer = [7u8; 511];
    let written = write_list(&sheet, &mut buffer);
    assert_eq!(rt; written.map_err(WriteFault::number), Err(51));
    assert_eq!(rt; &buffer[0..4], &[7u8; 4][..]);
    Ok(())
}

// The sheet with 17 candidates where all fit and have 3 points: 136 pairs in two blocks.
#[test]
fn two_blocks(rt: HostRuntime) -> Result<(), Fail> {
    let entries = [3u16; 136];
    let sheet = TableSheet::new(17, &entries)?;
    let mut buffer = [7u8; 1100];
    {
        let list = read_back(&sheet, &mut buffer)?;
        assert_eq!(rt; list.size(), 17);
        assert!(rt; list.fits(16, 15) && !list.fits(16, 17));
        assert_eq!(rt; list.points(4, 16), 3);
    }
    let mut copied = [0u8; 1100];
    assert_eq!(rt; copy_list(&buffer[0..1024], &mut copied)?, 1024);
    assert_eq!(rt; &copied[0..1024], &buffer[0..1024]);
    // The first pair of the last block is now the last of the block before it.
    // By index: after a write to a part no proof finds the bounds below.
    copied[516] = buffer[504];
    copied[517] = buffer[505];
    let [low, high, ..] = check_of(&copied[512..]).to_le_bytes();
    copied[1020] = low;
    copied[1021] = high;
    let Err(fault) = check_list(&copied[0..1024]) else {
        return Err(Fail::new("accepted"));
    };
    let refusal = fault.refusal();
    assert_eq!(rt; refusal.number, 18);
    assert_eq!(rt; refusal.block, Some(1));
    assert_eq!(rt; refusal.record, Some(0));
    Ok(())
}
