// What the letter call and its step are given.
use base_cell::verdicts::Labelling;
use data_wyckoff::space::Space;
use definitions::{Basis, Cells, Text};

// What the step is given beside labels: the sites' positions, and of each candidate a multiplicity, a letter and a
// space. A lifetime for each of the three that callers lend.
#[derive(Clone, Copy)]
pub struct Placed<'p, 'c, 's> {
    pub positions: &'p [Cells],
    pub basis: Basis,
    pub symprec: f64,
    pub multiplicities: &'c [u16],
    pub letters: &'c [u8],
    pub spaces: &'s [Space],
}

// What the call is given: of each listed site its position, and of each candidate a multiplicity, a letter and a text.
#[derive(Clone, Copy)]
pub struct Lettering<'a> {
    pub labelling: Labelling<'a, 'a>,
    pub positions: &'a [Cells],
    pub basis: Basis,
    pub multiplicities: &'a [u16],
    pub letters: &'a [u8],
    pub texts: &'a [Text],
    pub symprec: f64,
}
