// What is read of some lists, and how others are refused.
use crate::sheet::{ListSheet, read_input};
use blocks::checks::check_of;
use sheets::sheet::Sheet;
use std::alloc::{AllocError, Global};
use std::test::Fail;

// The list of the sheet with n = 4 and the table 5, 7, 65535, 1, 9, 4.
fn sheet_a() -> [u8; 512] {
    let start = [
        0u8, 0, 5, 3, 0, 1, 5, 0, 0, 2, 7, 0, 0, 3, 1, 0, 1, 3, 9, 0, 2, 3, 4, 0,
    ];
    let mut block = [0; 512];
    block[..24].copy_from_slice(&start);
    block[508] = 152;
    block[509] = 2;
    block
}

// The block with the right check.
fn sealed(mut block: [u8; 512]) -> [u8; 512] {
    let check = check_of(&block).to_le_bytes();
    block[508..].copy_from_slice(&check[..4]);
    block
}

// The block of zeros with one byte changed, and the right check.
fn changed(place: usize, byte: u8) -> [u8; 512] {
    let mut block = [0; 512];
    if let Some(slot) = block.get_mut(place) {
        *slot = byte;
    }
    sealed(block)
}

fn both(first: [u8; 512], second: [u8; 512]) -> [u8; 1024] {
    let mut bytes = [0; 1024];
    bytes[..512].copy_from_slice(&first);
    bytes[512..].copy_from_slice(&second);
    bytes
}

fn line(heap: Global, bytes: &[u8]) -> Result<String, AllocError> {
    match read_input(bytes) {
        Ok(_) => "accepted".to_string(heap),
        Err(fault) => fault.to_string(heap),
    }
}

#[test]
fn sheet_a_reads(rt: HostRuntime) -> Result<(), Fail> {
    let bytes = sheet_a();
    let sheet = ListSheet::new(&bytes)?;
    assert_eq!(rt; sheet.size(), 4);
    assert_eq!(rt; sheet.points(0, 1), 5);
    assert_eq!(rt; sheet.points(2, 0), 7);
    assert_eq!(rt; sheet.points(0, 3), 1);
    assert_eq!(rt; sheet.points(3, 1), 9);
    assert_eq!(rt; sheet.points(2, 3), 4);
    assert!(rt; !sheet.fits(1, 2) && sheet.fits(1, 3) && sheet.fits(3, 0));
    assert!(rt; !sheet.fits(2, 2) && !sheet.fits(0, 4) && !sheet.fits(256, 1));
    Ok(())
}

#[test]
fn zeros_are_a_list(rt: HostRuntime) -> Result<(), Fail> {
    let bytes = [0; 512];
    let sheet = ListSheet::new(&bytes)?;
    assert_eq!(rt; sheet.size(), 1);
    let seen = line(rt.alloc(), &bytes)?;
    assert_eq!(rt; seen.as_str(), "accepted");
    Ok(())
}

#[test]
fn lengths(rt: HostRuntime) -> Result<(), Fail> {
    let bytes = [0; 65537];
    let seen = line(rt.alloc(), &bytes)?;
    assert_eq!(rt; seen.as_str(), "refused 10 layer program block - record -");
    let seen = line(rt.alloc(), &bytes[..513])?;
    assert_eq!(rt; seen.as_str(), "refused 11 layer list block - record -");
    let seen = line(rt.alloc(), &bytes[..0])?;
    assert_eq!(rt; seen.as_str(), "refused 11 layer list block - record -");
    let seen = line(rt.alloc(), &bytes[..65536])?;
    assert_eq!(rt; seen.as_str(), "refused 15 layer block block 0 record -");
    Ok(())
}

#[test]
fn blocks(rt: HostRuntime) -> Result<(), Fail> {
    let heap = rt.alloc();
    let mut unsealed = [0; 512];
    unsealed[508] = 1;
    let seen = line(heap, &unsealed)?;
    assert_eq!(rt; seen.as_str(), "refused 12 layer block block 0 record -");
    let seen = line(heap, &changed(1, 1))?;
    assert_eq!(rt; seen.as_str(), "refused 13 layer block block 0 record -");
    let seen = line(heap, &changed(2, 127))?;
    assert_eq!(rt; seen.as_str(), "refused 15 layer block block 0 record -");
    let seen = line(heap, &changed(507, 1))?;
    assert_eq!(rt; seen.as_str(), "refused 16 layer block block 0 record -");
    Ok(())
}

#[test]
fn later_blocks(rt: HostRuntime) -> Result<(), Fail> {
    let heap = rt.alloc();
    let full = changed(2, 126);
    let mut other = [0; 512];
    other[0] = 1;
    other[2] = 1;
    other[3] = 1;
    let seen = line(heap, &both(full, sealed(other)))?;
    assert_eq!(rt; seen.as_str(), "refused 14 layer list block 1 record -");
    other[3] = 0;
    let seen = line(heap, &both(full, other))?;
    assert_eq!(rt; seen.as_str(), "refused 12 layer block block 1 record -");
    let seen = line(heap, &both([0; 512], other))?;
    assert_eq!(rt; seen.as_str(), "refused 15 layer block block 0 record -");
    other[2] = 0;
    let seen = line(heap, &both(full, sealed(other)))?;
    assert_eq!(rt; seen.as_str(), "refused 15 layer block block 1 record -");
    Ok(())
}

#[test]
fn records(rt: HostRuntime) -> Result<(), Fail> {
    let heap = rt.alloc();
    let mut bytes = sheet_a();
    bytes[13] = 4;
    let seen = line(heap, &sealed(bytes))?;
    assert_eq!(rt; seen.as_str(), "refused 17 layer list block 0 record 2");
    bytes[13] = 2;
    let seen = line(heap, &sealed(bytes))?;
    assert_eq!(rt; seen.as_str(), "refused 18 layer list block 0 record 2");
    bytes[13] = 3;
    bytes[22] = 255;
    bytes[23] = 255;
    let seen = line(heap, &sealed(bytes))?;
    assert_eq!(rt; seen.as_str(), "refused 19 layer list block 0 record 4");
    Ok(())
}
