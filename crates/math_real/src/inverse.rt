// The determinant and the inverse: each cofactor over the determinant.
ghost use Rattle.std.specs.Prelude.{◌≡◌};
ghost use Rattle.definitions.specs.Real.{det_f, inverse_f};
ghost use Rattle.math_real.specs.Rows.{cross_over};

use definitions::Basis;
use math_matrix::transposed;

pub fn determinant(m: Basis) -> f64
    ensures { result ≡ det_f m }
{
    let [[m00, m01, m02], [m10, m11, m12], [m20, m21, m22]] = m;
    m00 * (m11 * m22 - m21 * m12) - m01 * (m10 * m22 - m20 * m12) + m02 * (m10 * m21 - m20 * m11)
}

// the cofactors of a column, by the two columns that follow it, over d
fn cross_over(u: [f64; 3], v: [f64; 3], d: f64) -> [f64; 3]
    ensures { result ≡ cross_over u v d }
{
    let [u0, u1, u2] = u;
    let [v0, v1, v2] = v;
    [
        (u1 * v2 - u2 * v1) / d,
        (u2 * v0 - u0 * v2) / d,
        (u0 * v1 - u1 * v0) / d,
    ]
}

pub fn inverse(m: Basis) -> Basis
    ensures { result ≡ inverse_f m }
{
    let d = determinant(m);
    let [a, b, c] = transposed(m);
    [
        cross_over(b, c, d),
        cross_over(c, a, d),
        cross_over(a, b, d),
    ]
}
