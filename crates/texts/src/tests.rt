// What is read of some texts, and why others are refused.
use crate::faults::TextFault;
use crate::tables::{Table, read_table};
use std::test::Fail;

#[test]
fn tables(rt: HostRuntime) -> Result<(), Fail> {
    let heap = rt.alloc();
    let entries = vec![in heap; 5, 7, 65535, 1, 9, 4]?;
    assert_eq!(rt;
        read_table(heap, b"4\n5\n7\t65535\r\n 1 009 4"),
        Ok(Table { size: 4, entries })
    );
    let entries = vec![in heap]?;
    assert_eq!(rt; read_table(heap, b"  0  "), Ok(Table { size: 0, entries }));
    Ok(())
}

#[test]
fn refusals(rt: HostRuntime) {
    let heap = rt.alloc();
    assert_eq!(rt; read_table(heap, b""), Err(TextFault::Nothing));
    assert_eq!(rt; read_table(heap, b" \t\r\n"), Err(TextFault::Nothing));
    assert_eq!(rt;
        read_table(heap, b"2 65536 x"),
        Err(TextFault::Large { place: 6 })
    );
    assert_eq!(rt;
        read_table(heap, b"2 -1"),
        Err(TextFault::Byte { place: 2 })
    );
    assert_eq!(rt;
        read_table(heap, b"3 12,5"),
        Err(TextFault::Byte { place: 4 })
    );
    assert_eq!(rt;
        read_table(heap, b"1\x0c"),
        Err(TextFault::Byte { place: 1 })
    );
}

#[test]
fn lines(rt: HostRuntime) -> Result<(), Fail> {
    let heap = rt.alloc();
    let line = TextFault::Byte { place: 17 }.to_string(heap)?;
    assert_eq!(rt;
        line.as_str(),
        "refused text byte 17: neither a digit nor white space"
    );
    let line = TextFault::Large { place: 6 }.to_string(heap)?;
    assert_eq!(rt; line.as_str(), "refused text byte 6: a number above 65535");
    Ok(())
}
