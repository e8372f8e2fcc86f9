// Matrices of whole numbers as floats, and the inverse of one: exact cofactors, then one division an entry.
ghost use Rattle.std.specs.Prelude.{◌≡◌};
ghost use Rattle.definitions.specs.Real.{inverse_of_c};
ghost use Rattle.math_real.specs.Rows.{IsReal};

use crate::matrix;
use definitions::{Basis, Linear};
use math_matrix::{adjugate, determinant, widened, wider};

// Each entry as a float. Of whole numbers of 8, 16 or 32 bits it is the matrix that `Real.real` says: `real_is`.
pub fn real<T>(m: [[T; 3]; 3]) -> Basis
where
    f64: From<T>,
    ensures { IsReal ⟦<f64 as From<T>>⟧.from_gives m result }
{
    wider(m)
}

pub fn inverse_of_c(c: Linear) -> Basis
    ensures { result ≡ inverse_of_c c }
{
    let m = widened(c);
    let d = determinant(m) as f64;
    let a = real(adjugate(m));
    matrix::divide(a, d)
}
