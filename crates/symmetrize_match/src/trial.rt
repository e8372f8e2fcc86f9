// A position against a space: the 27 inner offsets, the first by itself, since most fits are there, then the others in
// one run; then the outer ones, whose square is asked only where none of the inner ones fits.
ghost use Rattle.std.specs.Prelude.{◌≡◌, ◌+◌, ◌<◌, map, take};
ghost use Rattle.definitions.specs.Cell.{point_of};
ghost use Rattle.definitions.specs.Wyckoff.{offsets};
ghost use Rattle.symmetrize_match.specs.Match.{first_near, square_real, match_real, cell, NearColumn};

use crate::bound::Tolerance;
use crate::moved::put_moved;
use crate::offsets::{Axes, INNER, OUTER};
use crate::{RealSpace, fit, passes};
use definitions::{Basis, Fit, Position};
use math_real::position;

// What one match asks of.
#[derive(Drop)]
pub(crate) struct Trial<'a> {
    pub(crate) basis: Basis,
    pub(crate) tolerance: Tolerance,
    pub(crate) space: &'a RealSpace,
    pub(crate) position: Position,
}

impl<'a> Trial<'a> {
    // The first offset, by itself.
    fn match_first(&self) -> Option<Fit>
        ensures { result
            ≡ first_near self.now.tolerance.symprec 0
            (map (λ o. square_real self.now.basis self.now.space.now self.now.position (point_of o)) (take 1 offsets)) }
    {
        let o = Position {
            x: -1.0,
            y: -1.0,
            z: -1.0,
        };
        let space = self.space;
        let v = fit::divided(space, self.position, o);
        let m = position::apply(space.matrix, position::apply(space.right, v));
        let residual = fit::residual(m, space.shift, self.position, o);
        self.tolerance.near(fit::square_of(self.basis, residual), 0)
    }

    // The first of the offsets that is near, their places counted from `from`.
    fn match_run<const N: usize>(&self, offsets: &Axes<N>, from: usize) -> Option<Fit>
        requires { from + N < 1000 }
        ensures { NearColumn self.now.tolerance.symprec from N
            (λ i. square_real self.now.basis self.now.space.now self.now.position
            (cell offsets.now.x offsets.now.y offsets.now.z i))
            result }
    {
        let mut moved = Axes {
            x: [0.0; N],
            y: [0.0; N],
            z: [0.0; N],
        };
        put_moved(self.space, self.position, offsets, &mut moved);
        passes::put_squares(
            self.basis,
            self.space.shift,
            self.position,
            offsets,
            &mut moved,
        );
        self.tolerance.first_near(&moved.x, from)
    }

    pub(crate) fn matched(&self) -> Option<Fit>
        ensures { result ≡ match_real self.now.basis self.now.tolerance.symprec self.now.space.now self.now.position }
    {
        if let Some(fit) = self.match_first() {
            return Some(fit);
        }
        if let Some(fit) = self.match_run(&INNER, 1) {
            return Some(fit);
        }
        self.match_run(&OUTER, 27)
    }
}
