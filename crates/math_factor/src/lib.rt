// The norm of a position and the Cholesky factor of a metric tensor.
#![tactic(auto)]

ghost use Rattle.std.specs.Prelude.{◌≡◌};
ghost use Rattle.definitions.specs.Real as Real;
ghost use Rattle.math_factor.specs.Factor.{handed_back};

use definitions::{Basis, Position};
use math_sqrt::sqrt;

// the root of (x² + y²) + z²
pub fn norm(p: Position) -> f64
    ensures { result ≡ Real.norm p }
{
    sqrt(p.x * p.x + p.y * p.y + p.z * p.z)
}

// Row by row, from the lower triangle of g alone. None where a pivot is not above 0; a NaN is not.
pub fn cholesky(g: Basis) -> Option<Basis>
    ensures { result ≡ handed_back (Real.cholesky g) }
{
    let p0 = g[0][0];
    let l00 = sqrt(p0);
    let l10 = g[1][0] / l00;
    let p1 = g[1][1] - l10 * l10;
    let l11 = sqrt(p1);
    let l20 = g[2][0] / l00;
    let l21 = (g[2][1] - l20 * l10) / l11;
    let p2 = g[2][2] - l20 * l20 - l21 * l21;
    let l22 = sqrt(p2);
    let above0 = 0.0 < p0;
    let above1 = 0.0 < p1;
    let above2 = 0.0 < p2;
    if above0 & above1 & above2 {
        return Some([[l00, 0.0, 0.0], [l10, l11, 0.0], [l20, l21, l22]]);
    }
    None
}
