// Lists put together by the rules, each with what is written of it or why it is refused.
use list_reader::asking::check_list;
use list_reader::sheet::read_input;
use list_writer::copies::copy_list;
use list_writer::faults::WriteFault;
use list_writer::writing::write_list;
use sheets::table::TableSheet;
use std::alloc::{AllocError, Global};
use std::test::Fail;

// Puts bytes at the start of a part, which may be longer.
fn put(part: &mut [u8], bytes: &[u8]) {
    for (byte, new) in part.iter_mut().zip(bytes) {
        *byte = *new;
    }
}

// Puts the right check into a block. It is summed here, and not by the product.
fn seal(block: &mut [u8]) {
    if let Some((content, check)) = block.split_last_chunk_mut::<4>() {
        let sum = content.iter().zip(1..509u32).fold(0u32, |sum, (byte, k)| {
            sum.wrapping_add(k.wrapping_mul(u32::from(*byte)))
        });
        *check = sum.to_le_bytes();
    }
}

// The list of 17 candidates that all fit with 3 points, some bytes changed and then sealed: 126 records, up to the pair
// 5 and 16, and 10 records.
fn list(changes: &[(usize, u8)]) -> [u8; 1024] {
    let mut bytes = [0; 1024];
    let (first, second) = bytes.split_at_mut(512);
    put(&mut first[2..4], &[126, 16]);
    put(&mut second[0..4], &[1, 0, 10, 16]);
    let records = first[4..508]
        .chunks_exact_mut(4)
        .chain(second[4..508].chunks_exact_mut(4));
    let pairs = (0..17u8).flat_map(|v| (0..v).map(move |u| [u, v]));
    for (record, [u, v]) in records.zip(pairs) {
        put(record, &[u, v, 3]);
    }
    for (place, byte) in changes {
        if let Some(changed) = bytes.get_mut(*place) {
            *changed = *byte;
        }
    }
    for block in bytes.chunks_exact_mut(512) {
        seal(block);
    }
    bytes
}

// (Also in the reader's tests, from where a helper can't be had.)
fn line(heap: Global, bytes: &[u8]) -> Result<String, AllocError> {
    match read_input(bytes) {
        Ok(_) => "accepted".to_string(heap),
        Err(fault) => fault.to_string(heap),
    }
}

// What is said of the list of two blocks, with some of its bytes changed.
fn said(heap: Global, changes: &[(usize, u8)]) -> Result<String, AllocError> {
    line(heap, &list(changes))
}

#[test]
fn two_blocks_by_the_rules(rt: HostRuntime) -> Result<(), Fail> {
    let seen = said(rt.alloc(), &[])?;
    assert_eq!(rt; seen.as_str(), "accepted");
    let entries = [3u16; 136];
    let sheet = TableSheet::new(17, &entries)?;
    let mut buffer = [7u8; 1024];
    assert_eq!(rt; write_list(&sheet, &mut buffer)?, 1024);
    assert_eq!(rt; buffer, list(&[]));
    Ok(())
}

// Two faults in one block: the first question decides.
#[test]
fn questions_put_to_one_block(rt: HostRuntime) -> Result<(), Fail> {
    let heap = rt.alloc();
    let mut bytes = list(&[(512, 2)]);
    bytes[1020] = bytes[1020].wrapping_add(1);
    let seen = line(heap, &bytes)?;
    assert_eq!(rt; seen.as_str(), "refused 12 layer block block 1 record -");
    let seen = said(heap, &[(512, 2), (515, 15)])?;
    assert_eq!(rt; seen.as_str(), "refused 13 layer block block 1 record -");
    let seen = said(heap, &[(515, 15), (514, 0)])?;
    assert_eq!(rt; seen.as_str(), "refused 14 layer list block 1 record -");
    // One record less, so that its bytes are unused and not zero.
    let seen = said(heap, &[(2, 125)])?;
    assert_eq!(rt; seen.as_str(), "refused 15 layer block block 0 record -");
    let seen = said(heap, &[(514, 0)])?;
    assert_eq!(rt; seen.as_str(), "refused 15 layer block block 1 record -");
    Ok(())
}

#[test]
fn limits_of_a_block(rt: HostRuntime) -> Result<(), Fail> {
    let heap = rt.alloc();
    let seen = said(heap, &[(513, 1)])?;
    assert_eq!(rt; seen.as_str(), "refused 13 layer block block 1 record -");
    let seen = said(heap, &[(2, 127)])?;
    assert_eq!(rt; seen.as_str(), "refused 15 layer block block 0 record -");
    let seen = said(heap, &[(514, 127)])?;
    assert_eq!(rt; seen.as_str(), "refused 15 layer block block 1 record -");
    let seen = said(heap, &[(514, 255)])?;
    assert_eq!(rt; seen.as_str(), "refused 15 layer block block 1 record -");
    let seen = said(heap, &[(514, 9)])?;
    assert_eq!(rt; seen.as_str(), "refused 16 layer block block 1 record -");
    // A pair in block 0 that is none is asked after the last byte of block 1.
    let seen = said(heap, &[(9, 0), (1019, 1)])?;
    assert_eq!(rt; seen.as_str(), "refused 16 layer block block 1 record -");
    Ok(())
}

// Two faults in one record, or in two that follow each other; and the order of records across two blocks.
#[test]
fn questions_put_to_records(rt: HostRuntime) -> Result<(), Fail> {
    let heap = rt.alloc();
    let seen = said(heap, &[(8, 1), (9, 0)])?;
    assert_eq!(rt; seen.as_str(), "refused 17 layer list block 0 record 1");
    let seen = said(heap, &[(9, 1), (10, 255), (11, 255)])?;
    assert_eq!(rt; seen.as_str(), "refused 18 layer list block 0 record 1");
    let seen = said(heap, &[(6, 255), (7, 255), (9, 0)])?;
    assert_eq!(rt; seen.as_str(), "refused 19 layer list block 0 record 0");
    // The pair 4 and 16 after 5 and 16.
    let seen = said(heap, &[(516, 4)])?;
    assert_eq!(rt; seen.as_str(), "refused 18 layer list block 1 record 0");
    Ok(())
}

// The last record is at bytes 552 to 555.
#[test]
fn limits_of_a_record(rt: HostRuntime) -> Result<(), Fail> {
    let heap = rt.alloc();
    let seen = said(heap, &[(553, 17)])?;
    assert_eq!(rt; seen.as_str(), "refused 17 layer list block 1 record 9");
    let seen = said(heap, &[(552, 16)])?;
    assert_eq!(rt; seen.as_str(), "refused 17 layer list block 1 record 9");
    let seen = said(heap, &[(552, 14)])?;
    assert_eq!(rt; seen.as_str(), "refused 18 layer list block 1 record 9");
    let seen = said(heap, &[(554, 255), (555, 255)])?;
    assert_eq!(rt; seen.as_str(), "refused 19 layer list block 1 record 9");
    let seen = said(heap, &[(554, 254), (555, 255)])?;
    assert_eq!(rt; seen.as_str(), "accepted");
    Ok(())
}

// Accepted, or refused with a number.
fn judged(bytes: &[u8]) -> Result<(), u16> {
    check_list(bytes).map_err(|fault| fault.refusal().number)
}

#[test]
fn lengths_of_a_list(rt: HostRuntime) {
    let bytes = [0u8; 133632];
    assert_eq!(rt; judged(&bytes[0..511]), Err(11));
    assert_eq!(rt; judged(&bytes[0..512]), Ok(()));
    assert_eq!(rt; judged(&bytes[0..133120]), Err(15));
    assert_eq!(rt; judged(&bytes[0..133632]), Err(11));
}

// With 256 candidates that all fit there are 32,640 records: 259 full blocks, and 6 records in the last.
#[test]
fn the_longest_list(rt: HostRuntime) -> Result<(), Fail> {
    let entries = [0u16; 32640];
    let sheet = TableSheet::new(256, &entries)?;
    let mut short = [7u8; 133119];
    let written = write_list(&sheet, &mut short);
    assert_eq!(rt; written.map_err(WriteFault::number), Err(51));
    assert!(rt; short[0] == 7 && short[133118] == 7);
    let mut buffer = [7u8; 133121];
    assert_eq!(rt; write_list(&sheet, &mut buffer)?, 133120);
    assert_eq!(rt;
        &buffer[132608..132616],
        &[3u8, 1, 6, 255, 249, 255, 0, 0][..]
    );
    assert_eq!(rt; buffer[133120], 7);
    // A copy has the same bytes, and the byte beyond them stays.
    let mut copy = [7u8; 133121];
    assert_eq!(rt; copy_list(&buffer[0..133120], &mut copy)?, 133120);
    assert_eq!(rt; &copy[0..133120], &buffer[0..133120]);
    assert_eq!(rt; copy[133120], 7);
    Ok(())
}
