// The letter call's work, part by part: the step on labelled sites, the labels before it, the candidates before both.
ghost use Rattle.std.specs.Prelude.{◌≤◌, length, take};
ghost use Rattle.definitions.specs.SiteCalls.{letter_conditions, letter_rooms};
ghost use Rattle.laws.specs.Verdicts.{Passed};
ghost use Rattle.base_cell.specs.Given.{arguments_of, orbit_cells, SameRooms, SameOrbits};
ghost use Rattle.data_wyckoff.specs.Spaces.{lists};
ghost use Rattle.symmetrize_wyckoff.specs.Given.{letter_arguments_of, letter_cells, placed_of};
ghost use Rattle.symmetrize_wyckoff.specs.Lettering.{AssignJudged, Labellable, LabelledJudged, LetterJudged};
ghost use Rattle.symmetrize_wyckoff.specs.Lettering.{assign_with, placed_by};

use crate::arguments::{Lettering, Placed};
use crate::assign_wyckoffs_by_orbit;
use base_cell::verdicts::Labelling;
use base_cell::{Orbits, label_sites};
use data_wyckoff::space::{Space, prepare_all};
use definitions::limits::MOST_CANDIDATES;
use definitions::{Refusal, Verdict};
use lent::Zero;

impl Placed<'_, '_, '_> {
    // 10 of the letters, 13, of the first n labels and multiplicities. The orbits are lent shared: behind an exclusive
    // loan the borrow checker takes no parts of both lists at once. No method with the call that symmetrize_standardize
    // makes: a public one asks for nothing, and what it promises past the lists' ends would be no plainer.
    fn letter_groups(&self, n: usize, orbits: &Orbits, letters: &mut [u8]) -> Verdict
        requires { (n ≤ length orbits.now.labels.now) × (n ≤ length orbits.now.multiplicities.now) }
        ensures { AssignJudged
            (assign_with (placed_of self.now) (take n orbits.now.labels.now) (take n orbits.now.multiplicities.now))
            letters.old letters.new result }
    {
        if letters.len() < n {
            return Err(Refusal::Buffer);
        }
        assign_wyckoffs_by_orbit(
            &orbits.labels[..n],
            &orbits.multiplicities[..n],
            self,
            letters,
        )
    }

    // 9, 10, 13
    fn letter_labelled(
        &self,
        labelling: &Labelling,
        orbits: &mut Orbits,
        letters: &mut [u8],
    ) -> Verdict
        requires { Labellable (arguments_of labelling.now) (placed_of self.now) }
        ensures judged { LabelledJudged (arguments_of labelling.now) (placed_of self.now)
            (letter_cells (orbit_cells orbits.old) letters.old)
            (letter_cells (orbit_cells orbits.new) letters.new) result }
        ensures rooms { SameRooms (orbit_cells orbits.old) (orbit_cells orbits.new) }
        ensures same_lists { SameOrbits orbits.old orbits.new }
    {
        label_sites(labelling, orbits)?;
        self.letter_groups(labelling.mapping.len(), orbits, letters)
    }
}

impl Lettering<'_> {
    // 9, 10, 13, by the spaces of the candidates
    fn letter_spaces(&self, spaces: &[Space], orbits: &mut Orbits, letters: &mut [u8]) -> Verdict
        requires { Labellable (arguments_of self.now.labelling)
            (placed_by (letter_arguments_of self.now) (lists spaces.now)) }
        ensures judged { LabelledJudged (arguments_of self.now.labelling)
            (placed_by (letter_arguments_of self.now) (lists spaces.now))
            (letter_cells (orbit_cells orbits.old) letters.old)
            (letter_cells (orbit_cells orbits.new) letters.new) result }
        ensures rooms { SameRooms (orbit_cells orbits.old) (orbit_cells orbits.new) }
        ensures same_lists { SameOrbits orbits.old orbits.new }
    {
        let placed = Placed {
            positions: self.positions,
            basis: self.basis,
            symprec: self.symprec,
            multiplicities: self.multiplicities,
            letters: self.letters,
            spaces,
        };
        placed.letter_labelled(&self.labelling, orbits, letters)
    }

    // 6, 8, 9, 10, 13: each candidate is prepared once, for all sites.
    pub(crate) fn letter_prepared(&self, orbits: &mut Orbits, letters: &mut [u8]) -> Verdict
        requires { Passed
            (letter_conditions (letter_arguments_of self.now)
            (letter_rooms (letter_cells (orbit_cells orbits.old) letters.old))) 3 }
        ensures judged { LetterJudged (letter_arguments_of self.now)
            (letter_cells (orbit_cells orbits.old) letters.old)
            (letter_cells (orbit_cells orbits.new) letters.new) result }
        ensures rooms { SameRooms (orbit_cells orbits.old) (orbit_cells orbits.new) }
        ensures same_lists { SameOrbits orbits.old orbits.new }
    {
        let mut spaces = [Space::ZERO; MOST_CANDIDATES];
        prepare_all(self.texts, &mut spaces)?;
        self.letter_spaces(&spaces[..self.texts.len()], orbits, letters)
    }
}
