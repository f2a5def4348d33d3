// Small sheets, each with what a search over it answers.
use rules::colour::Colour;
use search::calls::{Answer, Call};
use search::refusals::{GrantRefusal, HeldRefusal, OfferRefusal};
use search::replay::replay;
use search::search::Search;
use sheets::table::TableSheet;
use std::test::Fail;

// Four candidates, of which 1 and 2 don't fit.
const SMALL: [u16; 6] = [5, 7, 65535, 1, 9, 4];

#[test]
fn grants_of_three_and_ten(rt: HostRuntime) -> Result<(), Fail> {
    let mut buffer = [9; 4];
    let mut search = Search::new(TableSheet::new(4, &SMALL)?, Colour);
    assert_eq!(rt; search.ceiling(), 26);
    assert_eq!(rt; search.grant(3), Ok((3, false)));
    assert_eq!(rt; search.held(&mut buffer), Err(HeldRefusal::NoneHeld));
    assert_eq!(rt; search.ceiling(), 15);
    assert_eq!(rt; search.grant(10), Ok((4, true)));
    assert_eq!(rt; search.held(&mut buffer), Ok((3, 15)));
    assert_eq!(rt; buffer, [0, 1, 3, 9]);
    assert_eq!(rt; search.ceiling(), 15);
    assert_eq!(rt; search.grant(1), Ok((0, true)));
    Ok(())
}

#[test]
fn offers(rt: HostRuntime) -> Result<(), Fail> {
    let mut search = Search::new(TableSheet::new(4, &SMALL)?, Colour);
    assert_eq!(rt; search.offer(&[0, 2, 3]), Ok(true));
    assert_eq!(rt; search.held(&mut [0; 3]), Ok((3, 12)));
    assert_eq!(rt; search.held(&mut [0; 2]), Err(HeldRefusal::TooShort));
    assert_eq!(rt;
        search.offer(&[0, 1, 2]),
        Err(OfferRefusal::NotFitting(2, 1))
    );
    assert_eq!(rt;
        search.offer(&[0, 1, 2, 9]),
        Err(OfferRefusal::NotFitting(2, 1))
    );
    assert_eq!(rt; search.offer(&[0, 9]), Err(OfferRefusal::NotBelow(1)));
    assert_eq!(rt; search.offer(&[0, 0]), Err(OfferRefusal::NotAbove(1)));
    assert_eq!(rt; search.offer(&[]), Ok(false));
    Ok(())
}

#[test]
fn an_offer_of_the_same_weight_stays(rt: HostRuntime) -> Result<(), Fail> {
    let entries = [65535, 6, 6];
    let mut buffer = [0; 3];
    let mut search = Search::new(TableSheet::new(3, &entries)?, Colour);
    assert!(rt; search.grant(100)?.1);
    assert_eq!(rt; search.held(&mut buffer), Ok((2, 6)));
    assert_eq!(rt; buffer, [0, 2, 0]);
    let mut other = Search::new(TableSheet::new(3, &entries)?, Colour);
    assert_eq!(rt; other.offer(&[1, 2]), Ok(true));
    assert_eq!(rt; other.grant(100), Ok((1, true)));
    assert_eq!(rt; other.held(&mut buffer), Ok((2, 6)));
    assert_eq!(rt; buffer, [1, 2, 0]);
    Ok(())
}

#[test]
fn one_candidate(rt: HostRuntime) -> Result<(), Fail> {
    let mut buffer = [7];
    let mut search = Search::new(TableSheet::new(1, &[])?, Colour);
    assert_eq!(rt; search.grant(1_000_000), Ok((3, true)));
    assert_eq!(rt; search.held(&mut buffer), Ok((1, 0)));
    assert_eq!(rt; buffer, [0]);
    Ok(())
}

#[test]
fn refused_grants(rt: HostRuntime) -> Result<(), Fail> {
    let mut search = Search::new(TableSheet::new(4, &SMALL)?, Colour);
    assert_eq!(rt; search.grant(0), Err(GrantRefusal::OutOfRange));
    assert_eq!(rt; search.grant(1_000_001), Err(GrantRefusal::OutOfRange));
    assert_eq!(rt; search.grant(1), Ok((1, false)));
    Ok(())
}

// A list of calls is answered whole where there is memory.
#[test]
fn calls_one_after_another(rt: HostRuntime) -> Result<(), Fail> {
    let heap = rt.alloc();
    let calls = [
        Call::Grant(0),
        Call::Grant(1_000_000),
        Call::Held(vec![in heap; 9]?),
        Call::Ceiling,
    ];
    let answers = replay(heap, TableSheet::new(4, &SMALL)?, Colour, &calls)?;
    assert_eq!(rt; answers.len(), 4);
    for answer in &answers {
        match answer {
            Answer::Grant(Ok(done)) => assert_eq!(rt; *done, (7, true)),
            Answer::Grant(Err(refusal)) => assert_eq!(rt; *refusal, GrantRefusal::OutOfRange),
            Answer::Held(held, _) => assert_eq!(rt; *held, Err(HeldRefusal::TooShort)),
            Answer::Ceiling(ceiling) => assert_eq!(rt; *ceiling, 15),
            Answer::Offer(_) => assert!(rt; false),
        }
    }
    Ok(())
}
