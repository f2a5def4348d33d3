// The records that evidence consists of. A place counts from 0 in the list that it points into.

// A meter, and the collector that it reports to.
#[derive(Clone, Copy, Default)]
pub struct Meter {
    pub serial: u32,
    pub collector: u16,
}

// A flat, by its riser and its floor.
#[derive(Clone, Copy, Default)]
pub struct Flat {
    pub riser: u16,
    pub floor: u8,
}

// A pairing that may be true: the place of a meter and the place of a flat.
#[derive(Clone, Copy)]
pub struct Candidate {
    pub meter: u16,
    pub flat: u16,
}
