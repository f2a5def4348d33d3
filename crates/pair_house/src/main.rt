// The pairing of a small house, from its records.
#![tactic(auto)]

use evidence::records::{Candidate, Flat, Meter};
use evidence::sheet::EvidenceSheet;
use reports::report::Report;
use std::io;

// Two meters on one collector.
const METERS: [Meter; 2] = [
    Meter {
        serial: 1001,
        collector: 7,
    },
    Meter {
        serial: 1002,
        collector: 7,
    },
];

// Two flats on one riser, one above the other.
const FLATS: [Flat; 2] = [Flat { riser: 2, floor: 0 }, Flat { riser: 2, floor: 1 }];

// Every meter with every flat.
const CANDIDATES: [Candidate; 4] = [
    Candidate { meter: 0, flat: 0 },
    Candidate { meter: 0, flat: 1 },
    Candidate { meter: 1, flat: 0 },
    Candidate { meter: 1, flat: 1 },
];

fn main(rt: HostRuntime) -> io::Result<()> {
    match EvidenceSheet::new(&METERS, &FLATS, &CANDIDATES) {
        Ok(sheet) => {
            let report = Report::of(sheet);
            println!(rt; "{report}")
        }
        Err(fault) => {
            let number = fault.number();
            println!(rt; "refused {number}")
        }
    }
}
