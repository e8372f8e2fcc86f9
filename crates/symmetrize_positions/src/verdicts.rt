// The verdict: the call's refusals in their order, decided before anything is written.
ghost use Rattle.std.specs.Prelude.{◌≡◌, length, not, ◌||◌};
ghost use Rattle.definitions.specs.Lists.{all};
ghost use Rattle.definitions.specs.Refusal.{Checked};
ghost use Rattle.definitions.specs.Calls.{bad_target_counts};
ghost use Rattle.definitions.specs.Lent.{cells_within, bad_images};
ghost use Rattle.definitions.specs.Limits.{in_range, position_within};
ghost use Rattle.symmetrize_positions.specs.Given.{conditions};

use crate::GivenPositions;
use base_permutation::{all_permutations, bad_permutation_counts};
use checks::{all_cells_within, all_in_range, in_range, position_within, unimodular};
use definitions::{Refusal, Verdict};

impl GivenPositions<'_, '_> {
    // 2
    fn bad_counts(&self) -> bool
        ensures { result ≡ bad_target_counts (length self.now.positions.now) self.now.targets.rotations.now
            self.now.targets.translations.now self.now.targets.images.now }
    {
        let targets = self.targets;
        let k = targets.rotations.len();
        bad_permutation_counts(self.positions.len(), k, targets.images)
            || targets.translations.len() != k
    }

    // 3: all of T's and the rotations' entries
    fn bad_entries(&self) -> bool
        ensures { result ≡ (not (in_range self.now.t) || not (all in_range self.now.targets.rotations.now)) }
    {
        !in_range(self.t) || !all_in_range(self.targets.rotations)
    }

    // 4
    fn bad_floats(&self) -> bool
        ensures { result ≡ (not (position_within self.now.shift)
            || not (all cells_within self.now.positions.now)
            || not (all cells_within self.now.targets.translations.now)) }
    {
        !position_within(self.shift)
            || !all_cells_within(self.positions)
            || !all_cells_within(self.targets.translations)
    }

    // 5
    fn bad_images(&self) -> bool
        ensures { result ≡ bad_images (length self.now.positions.now) (length self.now.targets.rotations.now)
            self.now.targets.images.now }
    {
        let targets = self.targets;
        !all_permutations(
            targets.images,
            self.positions.len(),
            targets.rotations.len(),
        )
    }

    // 2, 3, 4, 5, 7, 10
    pub(crate) fn verdict(&self, room: usize) -> Verdict
        ensures { Checked (conditions self.now room) result }
    {
        if self.bad_counts() {
            return Err(Refusal::Counts);
        }
        if self.bad_entries() {
            return Err(Refusal::MatrixEntry);
        }
        if self.bad_floats() {
            return Err(Refusal::FloatRange);
        }
        if self.bad_images() {
            return Err(Refusal::SiteImage);
        }
        if !unimodular(self.t) {
            return Err(Refusal::Determinant);
        }
        if room < self.positions.len() {
            return Err(Refusal::Buffer);
        }
        Ok(())
    }
}
