// One offset of moyo's `match_wyckoff_coordinates`: what R is applied to, the residual, the square of its length.
ghost use Rattle.std.specs.Prelude.{◌≡◌};
ghost use Rattle.definitions.specs.Real.{apply_f, add_p, sub_p};
ghost use Rattle.symmetrize_match.specs.Match.{quotient_real, divided_real, square};

use crate::RealSpace;
use definitions::{Basis, Position};
use math_real::position;

pub(crate) fn quotient(d: f64, b: f64) -> f64
    ensures { result ≡ quotient_real d b }
{
    if d == 0.0f64 {
        return 0.0f64;
    }
    b / d
}

// D⁻¹ L ((o + p) - q)
pub(crate) fn divided(space: &RealSpace, p: Position, o: Position) -> Position
    ensures { result ≡ divided_real space.now o p }
{
    let b = position::apply(space.left, position::sub(position::add(o, p), space.shift));
    Position {
        x: quotient(space.diagonal.x, b.x),
        y: quotient(space.diagonal.y, b.y),
        z: quotient(space.diagonal.z, b.z),
    }
}

// ((m + q) - p) - o
pub(crate) fn residual(m: Position, shift: Position, p: Position, o: Position) -> Position
    ensures { result ≡ sub_p (sub_p (add_p m shift) p) o }
{
    position::sub(position::sub(position::add(m, shift), p), o)
}

pub(crate) fn square_of(basis: Basis, e: Position) -> f64
    ensures { result ≡ square (apply_f basis e) }
{
    let w = position::apply(basis, e);
    w.x * w.x + w.y * w.y + w.z * w.z
}
