// The sums of all sites' displacements, target by target, in the lent list.
// A site is the image of one site under each target, so its addends come in the targets' order; and no inverse image
// is looked for.
ghost use Rattle.std.specs.Prelude.{◌≡◌, [], map, ℕ, ◌≤◌, ◌<◌, length, get_or};
ghost use Rattle.definitions.specs.Calls.{symmetrized_cells};
ghost use Rattle.definitions.specs.Refusal.{padded};
ghost use Rattle.definitions.specs.Lent.{position_from, zero_cells};
ghost use Rattle.symmetrize_positions.specs.Targets.{Counted, Permuted, Made, more, total, mean};

use crate::site;
use definitions::{Cells, Position, Rotation};
use lent::clear;
use math_real::{position, whole};

// The targets past the verdict: a rotation, a translation and a permutation of the sites each. With them the positions
// that they symmetrise.
#[derive(Clone, Copy)]
pub(crate) struct Targets<'p, 'a> {
    pub(crate) positions: &'p [Cells],
    pub(crate) rotations: &'a [Rotation],
    pub(crate) translations: &'a [Cells],
    pub(crate) images: &'a [u8],
    ghost counted: { Counted (length positions.now) (length rotations.now) (length translations.now)
        (length images.now) },
    ghost permuted: { Permuted (length positions.now) (length rotations.now) images.now },
}

impl Targets<'_, '_> {
    // Target k's: site j's goes to its image.
    fn add_target(&self, k: usize, out: &mut [Cells])
        requires { (k < length self.now.rotations.now) × (length self.now.positions.now ≤ length out.old) }
        ensures { Made
            (more self.now.positions.now self.now.rotations.now self.now.translations.now self.now.images.now k)
            (length self.now.positions.now) out.old out.new }
    {
        let n = self.positions.len();
        let m = whole::real(self.rotations[k]);
        let translation = site::position_at(self.translations, k);
        let at = k * n;
        let images = &self.images[at..at + n];
        for (j, image) in images.iter().enumerate() {
            let i = usize::from(*image);
            let q = site::position_at(self.positions, j);
            let d = site::displacement(m, translation, q, site::position_at(self.positions, i));
            out[i] = site::grown(out[i], d);
        }
    }

    fn add_targets(&self, out: &mut [Cells])
        requires { (length self.now.positions.now ≤ length out.old)
            × ((i : ℕ) → i < length self.now.positions.now → get_or out.old i [] ≡ zero_cells) }
        ensures { Made
            (total self.now.positions.now self.now.rotations.now self.now.translations.now self.now.images.now)
            (length self.now.positions.now) out.old out.new }
    {
        for k in 0..self.rotations.len() {
            self.add_target(k, out);
        }
    }

    // Each position with the mean of its displacements, of which the list holds the sum.
    fn put_means(&self, out: &mut [Cells])
        requires { length self.now.positions.now ≤ length out.old }
        ensures { Made (mean self.now.positions.now (length self.now.rotations.now)) (length self.now.positions.now)
            out.old out.new }
    {
        let by = site::count_of(self.rotations.len());
        for (i, p) in self.positions.iter().enumerate() {
            out[i] = site::with_mean(Position::from(*p), out[i], by);
        }
    }

    // The answer at the front, zero behind it. Every position read is the unsymmetrised one: the sums grow in another
    // list.
    pub(crate) fn fill(&self, out: &mut [Cells])
        requires { length self.now.positions.now ≤ length out.old }
        ensures { out.new ≡ padded zero_cells
            (symmetrized_cells (map position_from self.now.positions.now) self.now.rotations.now
            self.now.translations.now self.now.images.now)
            (length out.old) }
    {
        clear(out, 0);
        self.add_targets(out);
        self.put_means(out);
    }
}
