// Strikes and restores on a small table: refusals with their numbers, and what stands above and below.
use crate::fault::StrikeFault;
use crate::layer::Struck;
use crate::moves::Move;
use sheets::sheet::Sheet;
use sheets::table::TableSheet;
use std::test::Fail;

const ENTRIES: [u16; 6] = [5, 7, 65535, 1, 9, 4];

#[test]
fn refusals(rt: HostRuntime) -> Result<(), Fail> {
    let mut layer = Struck::new(TableSheet::new(4, &ENTRIES)?);
    assert_eq!(rt; layer.strike(4), Err(StrikeFault::Outside));
    assert_eq!(rt; layer.restore(4), Err(StrikeFault::Outside));
    assert_eq!(rt; layer.restore(1), Err(StrikeFault::NotStruck));
    assert_eq!(rt; layer.strike(1), Ok(()));
    assert_eq!(rt; layer.strike(1), Err(StrikeFault::AlreadyStruck));
    assert_eq!(rt; layer.restore(1), Ok(()));
    assert_eq!(rt; layer.restore(1), Err(StrikeFault::NotStruck));
    assert_eq!(rt; StrikeFault::Outside.number(), 21);
    assert_eq!(rt; StrikeFault::AlreadyStruck.number(), 22);
    assert_eq!(rt; StrikeFault::NotStruck.number(), 23);
    Ok(())
}

#[test]
fn above_and_below(rt: HostRuntime) -> Result<(), Fail> {
    let mut layer = Struck::new(TableSheet::new(4, &ENTRIES)?);
    layer.strike(1)?;
    assert_eq!(rt; layer.size(), 4);
    assert!(rt; !layer.fits(0, 1) && !layer.fits(1, 3));
    assert_eq!(rt; layer.points(0, 1), 0);
    assert!(rt; layer.fits(0, 2) && !layer.fits(1, 2));
    assert_eq!(rt; layer.points(0, 2), 7);
    let sheet = layer.into_inner();
    assert_eq!(rt; sheet.points(0, 1), 5);
    Ok(())
}

#[test]
fn lists(rt: HostRuntime) -> Result<(), Fail> {
    // 2 ends restored, 3 struck, and what is refused changes nothing.
    let moves = [
        Move::Restore(3),
        Move::Strike(2),
        Move::Strike(3),
        Move::Strike(9),
        Move::Restore(2),
        Move::Strike(3),
    ];
    let mut layer = Struck::after(TableSheet::new(4, &ENTRIES)?, &moves);
    assert_eq!(rt; layer.restore(2), Err(StrikeFault::NotStruck));
    assert_eq!(rt; layer.strike(9), Err(StrikeFault::Outside));
    assert_eq!(rt; layer.points(1, 3), 0);
    assert_eq!(rt; layer.restore(3), Ok(()));
    assert_eq!(rt; layer.points(1, 3), 9);
    Ok(())
}
