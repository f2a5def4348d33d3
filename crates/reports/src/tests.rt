// The pairings of some tables, and why others are refused, as they are printed.
use crate::pairing::paired;
use std::alloc::{AllocError, Global};
use std::test::Fail;

// (Also in the tests of list_reports, of another report.)
fn printed(heap: Global, text: &[u8]) -> Result<String, AllocError> {
    match paired(heap, text) {
        Ok(report) => report.to_string(heap),
        Err(refusal) => refusal.to_string(heap),
    }
}

#[test]
fn pairings(rt: HostRuntime) -> Result<(), Fail> {
    let heap = rt.alloc();
    let lines = printed(heap, b"4\n5\n7 65535\n1 9 4\n")?;
    assert_eq!(rt;
        lines.as_str(),
        "candidates 4\nset 0 1 3\npoints 15\nflat 26 colour 15 path 21\nsearch 0 1 3\nsearch points 15 ceiling 15\nfinished yes nodes 7"
    );
    let lines = printed(heap, b"3 65535 6 6")?;
    assert_eq!(rt;
        lines.as_str(),
        "candidates 3\nset 0 2\npoints 6\nflat 12 colour 6 path 12\nsearch 0 2\nsearch points 6 ceiling 6\nfinished yes nodes 5"
    );
    let lines = printed(heap, b"2 0")?;
    assert_eq!(rt;
        lines.as_str(),
        "candidates 2\nset 0 1\npoints 0\nflat 0 colour 0 path 0\nsearch 0 1\nsearch points 0 ceiling 0\nfinished yes nodes 5"
    );
    let lines = printed(heap, b"2 65535")?;
    assert_eq!(rt;
        lines.as_str(),
        "candidates 2\nset 0\npoints 0\nflat 0 colour 0 path 0\nsearch 0\nsearch points 0 ceiling 0\nfinished yes nodes 3"
    );
    let lines = printed(heap, b"1")?;
    assert_eq!(rt;
        lines.as_str(),
        "candidates 1\nset 0\npoints 0\nflat 0 colour 0 path 0\nsearch 0\nsearch points 0 ceiling 0\nfinished yes nodes 3"
    );
    Ok(())
}

#[test]
fn refusals(rt: HostRuntime) -> Result<(), Fail> {
    let heap = rt.alloc();
    let size = "refused 1: a sheet has 1 to 256 candidates";
    assert_eq!(rt; printed(heap, b"0")?.as_str(), size);
    assert_eq!(rt; printed(heap, b"257 1 2 3")?.as_str(), size);
    let entries = "refused 2: n candidates have n(n - 1)/2 entries";
    assert_eq!(rt; printed(heap, b"3 1 2")?.as_str(), entries);
    assert_eq!(rt; printed(heap, b"3 1 2 3 4")?.as_str(), entries);
    assert_eq!(rt; printed(heap, b"")?.as_str(), "refused text: no number");
    assert_eq!(rt;
        printed(heap, b"2 1.5")?.as_str(),
        "refused text byte 3: neither a digit nor white space"
    );
    Ok(())
}
