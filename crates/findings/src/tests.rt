// What is found in a small table, as it is printed: with no grant, and with more than the search needs.
use crate::found::search_for;
use rules::colour::Colour;
use sheets::table::TableSheet;
use std::test::Fail;

// Four candidates, of which 1 and 2 don't fit. (Also in the tests of other crates, from where no constant can be had.)
const SMALL: [u16; 6] = [5, 7, 65535, 1, 9, 4];

#[test]
fn findings(rt: HostRuntime) -> Result<(), Fail> {
    let heap = rt.alloc();
    let none = search_for(TableSheet::new(4, &SMALL)?, Colour, 0);
    assert_eq!(rt;
        none.to_string(heap)?.as_str(),
        "search\nsearch points 0 ceiling 26\nfinished no nodes 0"
    );
    let all = search_for(TableSheet::new(4, &SMALL)?, Colour, 3);
    assert_eq!(rt;
        all.to_string(heap)?.as_str(),
        "search 0 1 3\nsearch points 15 ceiling 15\nfinished yes nodes 7"
    );
    Ok(())
}
