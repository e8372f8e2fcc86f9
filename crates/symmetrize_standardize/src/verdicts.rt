// The verdict of the whole call before 13: its own tests of 2 to 4, then what its sub-calls told, in the order of the
// numbers.
ghost use Rattle.std.specs.Prelude.{◌≤◌, ◌≡◌, ◌||◌, length};
ghost use Rattle.definitions.specs.Limits.{not_unimodular, bad_copies};
ghost use Rattle.definitions.specs.WholeCalls.{unlike_lists, rooms_of};
ghost use Rattle.symmetrize_standardize.specs.Given.{given_by, answer_cells};
ghost use Rattle.symmetrize_standardize.specs.Stages.{list_counts, list_entries, list_floats, given_verdict};
ghost use Rattle.symmetrize_standardize.specs.Stages.{refused_with};
ghost use Rattle.symmetrize_standardize.specs.Stages.{candidates_room, images_room, work_verdict, whole_verdict};

use crate::{Answer, Job};
use checks::{
    all_cells_within, all_in_range, copies, good_copies, good_symprec, in_range, is_some_count,
    lattice_within, position_within, unimodular,
};
use definitions::limits::{MOST_CANDIDATES, MOST_LISTED, MOST_SITES};
use definitions::{Bases, Linear, Refusal, Verdict};

// ---- how much is lent to the sub-calls: nothing past the limits, where 2 refuses whatever they tell

pub(crate) fn candidates_room(candidates: usize) -> usize
    ensures { result ≡ candidates_room candidates }
{
    if MOST_CANDIDATES < candidates {
        return 0;
    }
    candidates
}

pub(crate) fn images_room(sites: usize, targets: usize) -> usize
    ensures { result ≡ images_room sites targets }
{
    if MOST_SITES < sites {
        return 0;
    }
    if !is_some_count(targets) {
        return 0;
    }
    targets * sites
}

// ---- what the sub-calls told: of the candidates that are prepared, of C's invariant factors, of the aligned
// permutations and of the lattice

#[derive(Clone, Copy)]
pub(crate) struct Told {
    pub(crate) prepared: Verdict,
    pub(crate) factors: Result<[i16; 3], Refusal>,
    pub(crate) aligned: Verdict,
    pub(crate) lattice: Result<Bases, Refusal>,
}

fn refused_with<T: Copy>(told: Result<T, Refusal>, refusal: Refusal) -> bool
    ensures { result ≡ refused_with refusal told }
{
    match told {
        Ok(_) => false,
        Err(given) => given == refusal,
    }
}

fn bad_determinants(t: Linear, c: Linear) -> bool
    ensures { result ≡ (not_unimodular t || bad_copies c) }
{
    !unimodular(t) || !good_copies(c)
}

impl Job<'_> {
    // ---- 2 to 4

    // lists that belong together
    fn unlike_lists(&self) -> bool
        ensures { result ≡ unlike_lists (given_by self.now) }
    {
        self.elements.len() != self.positions.len()
            || self.translations.len() != self.rotations.len()
            || self.translations_of_targets.len() != self.rotations_of_targets.len()
            || self.multiplicities.len() != self.texts.len()
            || self.letters.len() != self.texts.len()
    }

    // The product is small by the time that it is made.
    fn bad_counts(&self) -> bool
        ensures { result ≡ list_counts (given_by self.now) }
    {
        let sites = self.positions.len();
        let operations = self.rotations.len();
        if MOST_SITES < sites {
            return true;
        }
        if !is_some_count(operations) {
            return true;
        }
        !is_some_count(self.rotations_of_targets.len())
            || !is_some_count(self.conventional.len())
            || MOST_CANDIDATES < self.texts.len()
            || self.images.len() != operations * sites
    }

    fn bad_entries(&self) -> bool
        ensures { result ≡ list_entries (given_by self.now) }
    {
        !in_range(self.t)
            || !in_range(self.c)
            || !all_in_range(self.rotations)
            || !all_in_range(self.rotations_of_targets)
            || !all_in_range(self.conventional)
    }

    fn bad_floats(&self) -> bool
        ensures { result ≡ list_floats (given_by self.now) }
    {
        !lattice_within(self.lattice)
            || !position_within(self.shift)
            || !all_cells_within(self.positions)
            || !all_cells_within(self.translations)
            || !all_cells_within(self.translations_of_targets)
            || !good_symprec(self.symprec)
    }

    fn given_verdict(&self) -> Verdict
        ensures { result ≡ given_verdict (given_by self.now) }
    {
        if self.unlike_lists() || self.bad_counts() {
            return Err(Refusal::Counts);
        }
        if self.bad_entries() {
            return Err(Refusal::MatrixEntry);
        }
        if self.bad_floats() {
            return Err(Refusal::FloatRange);
        }
        Ok(())
    }

    // ---- 5 to 12

    // Into the lists of an answer. 5 is told by the aligned permutations, which test every image past 2 and 3; 8 is C's
    // or a candidate's.
    fn work_verdict(&self, answer: &Answer, told: &Told) -> Verdict
        requires { length self.now.positions.now ≤ 256 }
        ensures { result ≡ work_verdict self.now.t self.now.c (length self.now.positions.now)
            (rooms_of (answer_cells answer.now)) told.now }
    {
        if refused_with(told.aligned, Refusal::SiteImage) {
            return Err(Refusal::SiteImage);
        }
        if refused_with(told.prepared, Refusal::Coordinates) {
            return Err(Refusal::Coordinates);
        }
        if bad_determinants(self.t, self.c) {
            return Err(Refusal::Determinant);
        }
        if refused_with(told.factors, Refusal::Diagonalisation)
            | refused_with(told.prepared, Refusal::Diagonalisation)
        {
            return Err(Refusal::Diagonalisation);
        }
        let sites = self.positions.len();
        let listed = sites * copies(self.c);
        if MOST_LISTED < listed {
            return Err(Refusal::ListedSites);
        }
        if answer.lacks_room(listed, sites) {
            return Err(Refusal::Buffer);
        }
        if refused_with(told.aligned, Refusal::TargetRotation) {
            return Err(Refusal::TargetRotation);
        }
        if refused_with(told.lattice, Refusal::Lattice) {
            return Err(Refusal::Lattice);
        }
        Ok(())
    }

    // 2 to 12
    pub(crate) fn whole_verdict(&self, answer: &Answer, told: &Told) -> Verdict
        ensures { result ≡ whole_verdict (given_by self.now) (rooms_of (answer_cells answer.now)) told.now }
    {
        self.given_verdict()?;
        self.work_verdict(answer, told)
    }
}
