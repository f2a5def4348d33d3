// What is printed of some lists.
use crate::pairing::pair;
use std::alloc::{AllocError, Global};
use std::test::Fail;

// The list of the sheet with n = 4 and the table 5, 7, 65535, 1, 9, 4: the header, and a row for each two that fit. (Also in
// the reader's tests, from where a helper can't be had.)
fn sheet_a() -> [u8; 512] {
    let rows = [
        [0, 0, 5, 3],
        [0, 1, 5, 0],
        [0, 2, 7, 0],
        [0, 3, 1, 0],
        [1, 3, 9, 0],
        [2, 3, 4, 0],
    ];
    let mut block = [0; 512];
    block[..24].copy_from_slice(rows.as_flattened());
    block[508] = 152;
    block[509] = 2;
    block
}

fn printed(heap: Global, bytes: &[u8]) -> Result<String, AllocError> {
    match pair(bytes) {
        Ok(report) => report.to_string(heap),
        Err(fault) => fault.to_string(heap),
    }
}

#[test]
fn reports(rt: HostRuntime) -> Result<(), Fail> {
    let heap = rt.alloc();
    assert_eq!(rt;
        printed(heap, &sheet_a())?.as_str(),
        "candidates 4\nset 0 1 3\npoints 15\nceiling 15\nfinished yes nodes 7"
    );
    assert_eq!(rt;
        printed(heap, &[0; 512])?.as_str(),
        "candidates 1\nset 0\npoints 0\nceiling 0\nfinished yes nodes 3"
    );
    Ok(())
}

#[test]
fn refusals(rt: HostRuntime) -> Result<(), Fail> {
    let heap = rt.alloc();
    // u = v in record 2, with the right check: byte 12 grew by 3.
    let mut bytes = sheet_a();
    bytes[12] = 3;
    bytes[508] = 191;
    assert_eq!(rt;
        printed(heap, &bytes)?.as_str(),
        "refused 17 layer list block 0 record 2"
    );
    assert_eq!(rt;
        printed(heap, &[0; 65537])?.as_str(),
        "refused 10 layer program block - record -"
    );
    assert_eq!(rt;
        printed(heap, &[0; 511])?.as_str(),
        "refused 11 layer list block - record -"
    );
    Ok(())
}
