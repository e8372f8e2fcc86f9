// What is given to the letter call: 2, 4 and 5 in their order, decided before anything is written.
ghost use Rattle.std.specs.Prelude.{◌≡◌};
ghost use Rattle.definitions.specs.SiteCalls.{bad_floats};
ghost use Rattle.symmetrize_wyckoff.specs.Given.{letter_arguments_of};
ghost use Rattle.symmetrize_wyckoff.specs.Lettering.{GivenJudged, bad_lists};

use crate::arguments::Lettering;
use checks::{all_cells_within, good_symprec, lattice_within};
use definitions::limits::MOST_CANDIDATES;
use definitions::{Refusal, Verdict};

impl Lettering<'_> {
    // A multiplicity, a letter and a text a candidate; a position a mapping entry.
    fn bad_lists(&self) -> bool
        ensures { result ≡ bad_lists (letter_arguments_of self.now) }
    {
        let texts = self.texts.len();
        MOST_CANDIDATES < texts
            || self.multiplicities.len() != texts
            || self.letters.len() != texts
            || self.labelling.mapping.len() != self.positions.len()
    }

    // 4
    fn bad_floats(&self) -> bool
        ensures { result ≡ bad_floats self.now.basis self.now.positions.now self.now.symprec }
    {
        !lattice_within(self.basis)
            || !all_cells_within(self.positions)
            || !good_symprec(self.symprec)
    }

    // 2, 4, 5
    pub(crate) fn given_verdict(&self) -> Verdict
        ensures { GivenJudged (letter_arguments_of self.now) result }
    {
        if self.labelling.bad_counts() || self.bad_lists() {
            return Err(Refusal::Counts);
        }
        if self.bad_floats() {
            return Err(Refusal::FloatRange);
        }
        if self.labelling.bad_sites() {
            return Err(Refusal::SiteImage);
        }
        Ok(())
    }
}
