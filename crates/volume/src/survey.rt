// What of a stripe is missing.
use recovery::loss::Lost;

// The missing data columns of a stripe as far as they matter, whether P is current, and how many columns are missing. That it tells of a
// stripe is asked by each function that takes one, since a type cannot name the bank as it then was.
#[derive(Clone, Copy)]
pub struct Survey {
    pub lost: Lost,
    pub p: bool,
    pub missing: usize,
}

// What a scrub counts: the columns that it mended, those whose member refused the write, and those that are gone or behind.
#[derive(Clone, Copy)]
pub struct Tally {
    pub mended: usize,
    pub refused: usize,
    pub absent: usize,
}
