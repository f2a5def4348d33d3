// Worked cases of the rules.
use crate::colour::Colour;
use crate::flat::Flat;
use crate::lesser::Lesser;
use crate::path::Path;
use crate::rule::Rule;
use candidates::set::CandidateSet;
use sheets::sheet::Sheet;
use sheets::table::TableSheet;
use std::test::Fail;

// Four candidates, of which 1 and 2 don't fit.
const SMALL: [u16; 6] = [5, 7, 65535, 1, 9, 4];

// The flat, the colour and the path number of two sets. (`Numbers` asks whole sheets only.)
fn numbers_of<S: Sheet>(sheet: &S, c: CandidateSet, s: CandidateSet) -> (u64, u64, u64) {
    (
        Flat.number(sheet, c, s),
        Colour.number(sheet, c, s),
        Path.number(sheet, c, s),
    )
}

#[test]
fn numbers(rt: HostRuntime) -> Result<(), Fail> {
    let sheet = TableSheet::new(4, &SMALL)?;
    assert_eq!(rt;
        numbers_of(&sheet, CandidateSet::empty(), CandidateSet::first(4)),
        (26, 15, 21)
    );
    Ok(())
}

#[test]
fn overlapping_sets(rt: HostRuntime) -> Result<(), Fail> {
    let sheet = TableSheet::new(4, &SMALL)?;
    let all = CandidateSet::first(4);
    assert_eq!(rt; numbers_of(&sheet, all, all), (78, 58, 60));
    Ok(())
}

#[test]
fn marks_that_are_no_candidates(rt: HostRuntime) -> Result<(), Fail> {
    let sheet = TableSheet::new(4, &SMALL)?;
    let marks = CandidateSet::first(256);
    assert_eq!(rt;
        numbers_of(&sheet, marks.minus(CandidateSet::first(4)), marks),
        (26, 15, 21)
    );
    Ok(())
}

#[test]
fn no_candidates(rt: HostRuntime) -> Result<(), Fail> {
    let sheet = TableSheet::new(4, &SMALL)?;
    assert_eq!(rt;
        numbers_of(&sheet, CandidateSet::first(4), CandidateSet::empty()),
        (0, 0, 0)
    );
    Ok(())
}

#[test]
fn limits(rt: HostRuntime) -> Result<(), Fail> {
    let sheet = TableSheet::new(4, &SMALL)?;
    let none = CandidateSet::empty();
    let all = CandidateSet::first(4);
    let rule = Lesser(Path, Colour);
    assert_eq!(rt; rule.number(&sheet, none, all), 15);
    assert_eq!(rt; rule.above(&sheet, none, all, 14), Some(15));
    assert_eq!(rt; rule.above(&sheet, none, all, 15), None);
    assert_eq!(rt; rule.above(&sheet, none, all, 21), None);
    assert_eq!(rt; Flat.above(&sheet, none, all, 25), Some(26));
    assert_eq!(rt; Flat.above(&sheet, none, all, 26), None);
    Ok(())
}

#[test]
fn heaviest_sheet(rt: HostRuntime) -> Result<(), Fail> {
    let entries = [65534; 32640];
    let sheet = TableSheet::new(256, &entries)?;
    let all = CandidateSet::first(256);
    assert_eq!(rt;
        numbers_of(&sheet, all, all),
        (6417089280, 6417089280, 6417089280)
    );
    Ok(())
}
