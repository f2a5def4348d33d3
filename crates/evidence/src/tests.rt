// Refusals with number and place, the worked house, and a table made of a house's answers.
use crate::fault::EvidenceFault;
use crate::records::{Candidate, Flat, Meter};
use crate::sheet::EvidenceSheet;
use candidates::set::CandidateSet;
use sheets::sheet::Sheet;
use sheets::sums::{is_clique, weight};
use sheets::table::TableSheet;
use std::test::Fail;

const METERS: [Meter; 2] = [
    Meter {
        serial: 1001,
        collector: 7,
    },
    Meter {
        serial: 1002,
        collector: 7,
    },
];

const FLATS: [Flat; 2] = [Flat { riser: 2, floor: 0 }, Flat { riser: 2, floor: 1 }];

const CANDIDATES: [Candidate; 4] = [
    Candidate { meter: 0, flat: 0 },
    Candidate { meter: 0, flat: 1 },
    Candidate { meter: 1, flat: 0 },
    Candidate { meter: 1, flat: 1 },
];

fn refusal<'a>(
    meters: &'a [Meter],
    flats: &'a [Flat],
    candidates: &'a [Candidate],
) -> Option<EvidenceFault> {
    EvidenceSheet::new(meters, flats, candidates).err()
}

fn pair(u: usize, v: usize) -> CandidateSet {
    CandidateSet::empty().with(u).with(v)
}

#[test]
fn counts(rt: HostRuntime) {
    let none = [CANDIDATES[0]; 0];
    let most = [CANDIDATES[0]; 256];
    let more = [CANDIDATES[0]; 257];
    assert_eq!(rt;
        refusal(&METERS, &FLATS, &none),
        Some(EvidenceFault::Candidates)
    );
    assert_eq!(rt;
        refusal(&METERS, &FLATS, &more),
        Some(EvidenceFault::Candidates)
    );
    assert_eq!(rt; refusal(&METERS, &FLATS, &most), None);
    assert_eq!(rt; EvidenceFault::Candidates.number(), 1);
}

#[test]
fn serials(rt: HostRuntime) {
    let equal = [METERS[0], METERS[0]];
    let low = Meter {
        serial: 0,
        collector: 7,
    };
    let falls = [METERS[0], METERS[1], low];
    // The third meter is questioned though no candidate names it.
    assert_eq!(rt;
        refusal(&equal, &FLATS, &CANDIDATES),
        Some(EvidenceFault::Serial { meter: 1 })
    );
    assert_eq!(rt;
        refusal(&falls, &FLATS, &CANDIDATES),
        Some(EvidenceFault::Serial { meter: 2 })
    );
    assert_eq!(rt; refusal(&[low], &FLATS, &[CANDIDATES[0]]), None);
    assert_eq!(rt; EvidenceFault::Serial { meter: 1 }.number(), 3);
}

#[test]
fn places(rt: HostRuntime) {
    let meter = [CANDIDATES[0], Candidate { meter: 2, flat: 0 }];
    let flat = [
        CANDIDATES[0],
        CANDIDATES[1],
        Candidate { meter: 0, flat: 2 },
    ];
    assert_eq!(rt;
        refusal(&METERS, &FLATS, &meter),
        Some(EvidenceFault::Place { candidate: 1 })
    );
    assert_eq!(rt;
        refusal(&METERS, &FLATS, &flat),
        Some(EvidenceFault::Place { candidate: 2 })
    );
    assert_eq!(rt;
        refusal(&[METERS[0]; 0], &FLATS, &CANDIDATES),
        Some(EvidenceFault::Place { candidate: 0 })
    );
    assert_eq!(rt; EvidenceFault::Place { candidate: 1 }.number(), 4);
}

#[test]
fn first_no(rt: HostRuntime) {
    let equal = [METERS[0], METERS[0]];
    assert_eq!(rt;
        refusal(&equal, &FLATS, &[CANDIDATES[0]; 0]),
        Some(EvidenceFault::Candidates)
    );
    assert_eq!(rt;
        refusal(&equal, &FLATS, &[Candidate { meter: 9, flat: 9 }]),
        Some(EvidenceFault::Serial { meter: 1 })
    );
}

#[test]
fn house(rt: HostRuntime) -> Result<(), Fail> {
    let sheet = EvidenceSheet::new(&METERS, &FLATS, &CANDIDATES)?;
    assert_eq!(rt; sheet.size(), 4);
    assert!(rt; is_clique(&sheet, pair(0, 3)));
    assert_eq!(rt; weight(&sheet, pair(0, 3)), 51);
    assert!(rt; is_clique(&sheet, pair(1, 2)));
    assert_eq!(rt; weight(&sheet, pair(1, 2)), 40);
    assert!(rt; !sheet.fits(0, 1) && !sheet.fits(0, 2) && !sheet.fits(0, 4));
    Ok(())
}

// Writes the entries of a table that answers as the sheet does.
fn write_entries(sheet: &EvidenceSheet, entries: &mut [u16]) {
    let pairs = (0..sheet.size()).flat_map(|v| (0..v).map(move |u| (u, v)));
    for (entry, (u, v)) in entries.iter_mut().zip(pairs) {
        *entry = if sheet.fits(u, v) {
            u16::try_from(sheet.points(u, v)).unwrap_or(65534)
        } else {
            65535
        };
    }
}

#[test]
fn answers_as_table(rt: HostRuntime) -> Result<(), Fail> {
    let meters = [
        Meter {
            serial: 5,
            collector: 1,
        },
        Meter {
            serial: 6,
            collector: 1,
        },
        Meter {
            serial: 9,
            collector: 2,
        },
    ];
    let flats = [
        Flat { riser: 1, floor: 3 },
        Flat { riser: 1, floor: 0 },
        Flat { riser: 2, floor: 3 },
    ];
    let candidates = [
        Candidate { meter: 0, flat: 0 },
        Candidate { meter: 0, flat: 1 },
        Candidate { meter: 1, flat: 0 },
        Candidate { meter: 1, flat: 2 },
        Candidate { meter: 2, flat: 1 },
        Candidate { meter: 2, flat: 2 },
    ];
    let sheet = EvidenceSheet::new(&meters, &flats, &candidates)?;
    let mut entries = [0; 15];
    write_entries(&sheet, &mut entries);
    let table = TableSheet::new(6, &entries)?;
    // All pairs by number, also with 6, which is no candidate.
    for u in 0..7 {
        for v in 0..7 {
            assert_eq!(rt; sheet.fits(u, v), table.fits(u, v));
            assert_eq!(rt; sheet.points(u, v), table.points(u, v));
        }
    }
    Ok(())
}
