// The refusals that are decided before anything is written: all but 11.
ghost use Rattle.std.specs.Prelude.{◌≡◌, not, ◌||◌, length};
ghost use Rattle.definitions.specs.Lists.{all};
ghost use Rattle.definitions.specs.Lent.{bad_permutation_counts, bad_images};
ghost use Rattle.definitions.specs.Limits.{in_range, not_some};
ghost use Rattle.symmetrize_align.specs.Aligning.{Given, conditions};

use crate::GivenAlignment;
use base_permutation::{all_permutations, bad_permutation_counts};
use checks::{all_in_range, in_range, is_some_count, unimodular};
use definitions::{Refusal, Verdict};

impl GivenAlignment<'_, '_> {
    // 2
    fn bad_counts(&self) -> bool
        ensures { result ≡ (bad_permutation_counts self.now.operations.sites
            (length self.now.operations.rotations.now) self.now.operations.images.now
            || not_some (length self.now.targets.now)) }
    {
        let o = self.operations;
        bad_permutation_counts(o.sites, o.rotations.len(), o.images)
            || !is_some_count(self.targets.len())
    }

    // 3
    fn bad_entries(&self) -> bool
        ensures { result ≡ (not (in_range self.now.t) || not (all in_range self.now.operations.rotations.now)
            || not (all in_range self.now.targets.now)) }
    {
        !in_range(self.t) || !all_in_range(self.operations.rotations) || !all_in_range(self.targets)
    }

    // 5
    fn bad_images(&self) -> bool
        ensures { result ≡ bad_images self.now.operations.sites (length self.now.operations.rotations.now)
            self.now.operations.images.now }
    {
        let o = self.operations;
        !all_permutations(o.images, o.sites, o.rotations.len())
    }

    // 2, 3, 5, 7, 10
    pub(crate) fn verdict(&self, room: usize) -> Verdict
        ensures { Given (conditions self.now room) result }
    {
        if self.bad_counts() {
            return Err(Refusal::Counts);
        }
        if self.bad_entries() {
            return Err(Refusal::MatrixEntry);
        }
        if self.bad_images() {
            return Err(Refusal::SiteImage);
        }
        if !unimodular(self.t) {
            return Err(Refusal::Determinant);
        }
        let answer = self.targets.len() * self.operations.sites;
        if room < answer {
            return Err(Refusal::Buffer);
        }
        Ok(())
    }
}
