// A sheet read from evidence: three lent lists of records, read by place.
ghost use Rattle.std.specs.Prelude.{◌≡◌, ℕ, ◌≤◌, length, if◌then◌else◌, Some, None};
ghost use Rattle.sheets.specs.Refusals.{first_no};
ghost use Rattle.evidence.specs.Evidence.{wiring as wiring_of, order as order_of, meter_at, flat_at, evidence};
ghost use Rattle.evidence.specs.Judged.{serials, places};
ghost use Rattle.evidence.specs.Worked.{Worked};

use crate::fault::EvidenceFault;
use crate::records::{Candidate, Flat, Meter};
use sheets::sheet::{Points, Sheet};
use std::cmp::Ordering;

// Candidates are read from the lists as they are asked for; nothing is copied.
#[derive(Clone, Copy)]
pub struct EvidenceSheet<'a> {
    meters: &'a [Meter],
    flats: &'a [Flat],
    candidates: &'a [Candidate],
    ghost least: { 1 ≤ length candidates.now },
    ghost most: { length candidates.now ≤ 256 },
}

// A meter, and the flat that a candidate puts it in.
#[derive(Clone, Copy)]
struct Hung {
    meter: Meter,
    flat: Flat,
}

impl Hung {
    // 40 for one collector and one riser, 15 for two collectors and two risers.
    fn wiring(self, other: Hung) -> Points
        ensures { result ≡ wiring_of self.meter other.meter self.flat other.flat }
    {
        let collectors = self.meter.collector == other.meter.collector;
        let risers = self.flat.riser == other.flat.riser;
        match (collectors, risers) {
            (true, true) => 40,
            (false, false) => 15,
            _ => 0,
        }
    }

    // 11 if the higher serial has the higher floor, 4 if the floors are equal.
    fn order(self, other: Hung) -> Points
        ensures { result ≡ order_of self.meter other.meter self.flat other.flat }
    {
        let serials = self.meter.serial.cmp(&other.meter.serial);
        let floors = self.flat.floor.cmp(&other.flat.floor);
        match (serials, floors) {
            (Ordering::Less, Ordering::Less) | (Ordering::Greater, Ordering::Greater) => 11,
            (_, Ordering::Equal) => 4,
            _ => 0,
        }
    }
}

// Each serial is above the one before.
fn check_serials(meters: &[Meter]) -> Result<(), EvidenceFault>
    ensures { result ≡ first_no (serials meters.now) }
{
    let low = meters
        .iter()
        .skip(1)
        .zip(meters)
        .position(|(meter, before)| meter.serial <= before.serial);
    match low {
        Some(place) => Err(EvidenceFault::Serial { meter: place + 1 }),
        None => Ok(()),
    }
}

// Each candidate names places within both lists.
fn check_places(meters: usize, flats: usize, candidates: &[Candidate]) -> Result<(), EvidenceFault>
    ensures { result ≡ first_no (places meters flats candidates.now) }
{
    let outside = candidates.iter().position(|c| usize::from(c.meter) >= meters
        || usize::from(c.flat) >= flats);
    match outside {
        Some(candidate) => Err(EvidenceFault::Place { candidate }),
        None => Ok(()),
    }
}

impl<'a> EvidenceSheet<'a> {
    ghost use Rattle.evidence.specs.Sheets.{Answered, meaning_of};

    // The sheet of the evidence. Every record is questioned, also one that no candidate names. (Three parameters: what holds
    // them together is the sheet.)
    pub fn new(
        meters: &'a [Meter],
        flats: &'a [Flat],
        candidates: &'a [Candidate],
    ) -> Result<EvidenceSheet<'a>, EvidenceFault>
        ensures value { Answered meters.now flats.now candidates.now result }
        ensures bound { (u v : ℕ) → (evidence meters.now flats.now candidates.now).points u v ≤ 51 }
        ensures worked { Worked }
    {
        if !(1..=256).contains(&candidates.len()) {
            return Err(EvidenceFault::Candidates);
        }
        check_serials(meters)?;
        check_places(meters.len(), flats.len(), candidates)?;
        Ok(EvidenceSheet {
            meters,
            flats,
            candidates,
        })
    }

    // The points of two that fit.
    fn points_of(&self, u: usize, v: usize) -> Option<Points>
        ensures { result ≡ (if (meaning_of self.now).fit u v then Some ((meaning_of self.now).points u v) else None) }
    {
        let a = self.candidates.get(u)?;
        let b = self.candidates.get(v)?;
        if a.meter == b.meter || a.flat == b.flat {
            return None;
        }
        let a = self.hung(*a);
        let b = self.hung(*b);
        Some(a.wiring(b) + a.order(b))
    }

    // The records that a candidate names; past the end of a list they are zeros.
    fn hung(&self, candidate: Candidate) -> Hung
        ensures meter { result.meter ≡ meter_at self.now.meters.now candidate.meter }
        ensures flat { result.flat ≡ flat_at self.now.flats.now candidate.flat }
    {
        let meter = self.meters.get(usize::from(candidate.meter));
        let flat = self.flats.get(usize::from(candidate.flat));
        Hung {
            meter: meter.copied().unwrap_or_default(),
            flat: flat.copied().unwrap_or_default(),
        }
    }
}

impl Sheet for EvidenceSheet<'_> {
    ghost use Rattle.evidence.specs.Sheets.{evidence-lawful, meaning_of};

    ghost meaning = { meaning_of };

    ghost lawful = { evidence-lawful };

    fn size(&self) -> usize {
        self.candidates.len()
    }

    fn fits(&self, u: usize, v: usize) -> bool {
        self.points_of(u, v).is_some()
    }

    fn points(&self, u: usize, v: usize) -> Points {
        self.points_of(u, v).unwrap_or(0)
    }
}
