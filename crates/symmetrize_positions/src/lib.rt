// moyo's `symmetrize_positions` of symmetrize/symmetrization.rs over lent lists, and the float part of
// `UnimodularTransformation::transform_cell` before it.
#![tactic(auto)]

mod site;
mod targets;
mod transform;
mod verdicts;

ghost use Rattle.std.specs.Prelude.{◌≡◌, length};
ghost use Rattle.definitions.specs.Refusal.{padded};
ghost use Rattle.definitions.specs.Calls.{PositionsPromise};
ghost use Rattle.definitions.specs.Lent.{zero_cells};
ghost use Rattle.symmetrize_positions.specs.Given.{Known, answer};

use crate::targets::Targets;
use definitions::limits::MOST_SITES;
use definitions::{Cells, Linear, Position, Rotation, Verdict};
use lent::{Zero, clear};

// The targets that a caller gives: a rotation and a translation each, and the images of all sites under it.
#[derive(Clone, Copy)]
pub struct GivenTargets<'a> {
    pub rotations: &'a [Rotation],
    pub translations: &'a [Cells],
    pub images: &'a [u8],
}

// What the call is given: the change T to the selected primitive basis, the shift of the origin, the positions, and the
// targets.
#[derive(Clone, Copy)]
pub struct GivenPositions<'p, 't> {
    pub t: Linear,
    pub shift: Position,
    pub positions: &'p [Cells],
    pub targets: GivenTargets<'t>,
}

impl GivenPositions<'_, '_> {
    // The transformed positions, and the answer of them.
    fn transform_and_fill(&self, out: &mut [Cells])
        requires { Known self.now (length out.old) }
        ensures { out.new ≡ padded zero_cells (answer self.now) (length out.old) }
    {
        // no heap: a table for the most sites, of which the first n are written
        let mut held = [Cells::ZERO; MOST_SITES];
        let inverse = transform::real_inverse(self.t);
        transform::put_transformed(inverse, self.shift, self.positions, &mut held);
        let known = Targets {
            positions: &held[..self.positions.len()],
            rotations: self.targets.rotations,
            translations: self.targets.translations,
            images: self.targets.images,
        };
        known.fill(out);
    }
}

// Given positions, made T⁻¹(p - shift) and symmetrised.
pub fn symmetrize_positions(given: &GivenPositions, out: &mut [Cells]) -> Verdict
    ensures { PositionsPromise given.now.t given.now.shift given.now.positions.now
        given.now.targets.rotations.now given.now.targets.translations.now given.now.targets.images.now
        out.old out.new result }
{
    match given.verdict(out.len()) {
        Ok(()) => {
            given.transform_and_fill(out);
            Ok(())
        }
        Err(refusal) => {
            clear(out, 0);
            Err(refusal)
        }
    }
}
