// The search for a position's letter: the candidates of its orbit's multiplicity, in list order.
ghost use Rattle.std.specs.Prelude.{◌≡◌, option_map, is_some};
ghost use Rattle.std.specs.List.{find};
ghost use Rattle.symmetrize_wyckoff.specs.Prepared.{fits_real};

use definitions::{Basis, Fit, Position};
use symmetrize_match::{RealSpace, match_prepared};

// A candidate with its space worked out as floats.
#[derive(Clone, Copy)]
pub(crate) struct Candidate {
    pub(crate) multiplicity: u16,
    pub(crate) letter: u8,
    pub(crate) space: RealSpace,
}

// A match is taken apart: it fits, at some place and distance, or it misses.
fn is_fit(tried: Option<Fit>) -> bool
    ensures { result ≡ is_some tried }
{
    match tried {
        Some(Fit { .. }) => true,
        None => false,
    }
}

// What a site is tried against.
#[derive(Clone, Copy)]
pub(crate) struct Candidates<'a> {
    pub(crate) basis: Basis,
    pub(crate) symprec: f64,
    pub(crate) listed: &'a [Candidate],
}

impl Candidates<'_> {
    // A candidate is tried only where its multiplicity is the orbit's: it fits by one of the 125 offsets.
    fn fits(&self, candidate: &Candidate, multiplicity: u16, position: Position) -> bool
        ensures { result ≡ fits_real self.now.basis self.now.symprec multiplicity position candidate.now }
    {
        candidate.multiplicity == multiplicity
            && is_fit(match_prepared(self.basis, self.symprec, &candidate.space, position))
    }

    // moyo's `find_for_orbit`: the letter of the first candidate of the orbit's multiplicity that the position fits.
    pub(crate) fn find_letter(&self, multiplicity: u16, position: Position) -> Option<u8>
        ensures { result ≡ option_map (λ c. c.letter)
            (find (fits_real self.now.basis self.now.symprec multiplicity position) self.now.listed.now) }
    {
        self.listed
            .iter()
            .find(|candidate| self.fits(candidate, multiplicity, position))
            .map(|candidate| candidate.letter)
    }
}
