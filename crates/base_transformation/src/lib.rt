// moyo's base/transformation.rs, its whole-number parts: a rotation in another basis, and the points of the
// conventional cell, one for each class of whole translations.
#![tactic(auto)]

pub mod cell;

ghost use Rattle.std.specs.Prelude.{◌≡◌, ◌*◌, ◌/◌, ◌%◌, ◌<◌, ◌≤◌, true, [], ◌∷◌, ◌++◌, map, length, drop, pos};
ghost use Rattle.definitions.specs.Matrix.{apply as apply_of};
ghost use Rattle.definitions.specs.Refusal.{Returns, outcome, padded};
ghost use Rattle.definitions.specs.Calls.{points_conditions};
ghost use Rattle.definitions.specs.Calls.{RotationPromise, PointsPromise, FactorsPromise, IsSnf};
ghost use Rattle.definitions.specs.Lent.{zero_point};
ghost use Rattle.definitions.specs.Snf.{box, points, diagonal as diagonal_of};
ghost use Rattle.definitions.specs.Limits.{in_range};
ghost use Rattle.math_snf.specs.Step.{state_of};
ghost use Rattle.base_transformation.specs.Answers.{Diagonalised, Ready};

use checks::{copies, good_copies, in_range, unimodular};
use definitions::limits::MOST_COPIES;
use definitions::{Cofactors, Integers, Linear, Point, Refusal, Rotation, SnfMatrix, Verdict};
use lent::clear;
use math_matrix::{apply, inverse, transform};
use math_snf::{SmithForm, snf};

// ---- a rotation in another basis

// T⁻¹RT
pub fn transform_rotation(t: Linear, r: Rotation) -> Result<Integers, Refusal>
    ensures { RotationPromise t r result }
{
    if !in_range(t) {
        return Err(Refusal::MatrixEntry);
    }
    if !in_range(r) {
        return Err(Refusal::MatrixEntry);
    }
    if !unimodular(t) {
        return Err(Refusal::Determinant);
    }
    Ok(transform(t, r))
}

// ---- points

// the vector at the place k, the last number fastest
fn digits(k: usize, b: usize, c: usize) -> [i16; 3]
    requires { (k < 64) × (0 < b) × (0 < c) × (b * c ≤ 64) }
    ensures { result ≡ pos (k / (b * c)) ∷ pos (k / c % b) ∷ pos (k % c) ∷ [] }
{
    [(k / (b * c)) as i16, (k / c % b) as i16, (k % c) as i16]
}

// the image of each vector
fn put_points(m: Cofactors, a: usize, b: usize, c: usize, out: &mut [Point])
    requires { (length out.old ≡ a * b * c) × (a * b * c ≤ 64) }
    ensures { out.new ≡ map (apply_of m) (box a b c) }
{
    for (k, x) in out.iter_mut().enumerate() {
        *x = apply(m, digits(k, b, c));
    }
}

fn diagonal(d: SnfMatrix) -> [i16; 3]
    ensures { result ≡ diagonal_of d }
{
    [d[0][0], d[1][1], d[2][2]]
}

// the points, of D and L, and zero behind them
pub(crate) fn list_points(form: SmithForm, out: &mut [Point])
    requires { Ready form.d (length out.old) }
    ensures { out.new ≡ padded zero_point (points (state_of form)) (length out.old) }
{
    let [a, b, c] = diagonal(form.d).map(|e| usize::from(e.unsigned_abs()));
    let n = a * b * c;
    put_points(inverse(form.l), a, b, c, &mut out[..n]);
    clear(out, n);
}

// ---- the conditions of the points

// the diagonalisation, where there are from 1 to 64 copies and it keeps within its range
pub(crate) fn diagonalise(c: Linear) -> Result<SmithForm, Refusal>
    requires { in_range c ≡ true }
    ensures { Diagonalised c result }
{
    if !good_copies(c) {
        return Err(Refusal::Determinant);
    }
    snf(c)
}

fn diagonalise_for(c: Linear, room: usize) -> Result<SmithForm, Refusal>
    ensures { Returns (points_conditions c room) (IsSnf c) (outcome state_of result) }
{
    if !in_range(c) {
        return Err(Refusal::MatrixEntry);
    }
    let form = diagonalise(c)?;
    if room < copies(c) {
        return Err(Refusal::Buffer);
    }
    Ok(form)
}

// L⁻¹f for each f below the diagonal of D, last fastest
pub fn lattice_points(c: Linear, out: &mut [Point]) -> Verdict
    ensures { PointsPromise c out.old out.new result }
{
    match diagonalise_for(c, out.len()) {
        Ok(form) => {
            list_points(form, out);
            Ok(())
        }
        Err(refusal) => {
            clear(out, 0);
            Err(refusal)
        }
    }
}

// ---- the invariant factors

// The diagonal of D, of C. There is room for any number of copies, so that 10 does not apply.
pub fn invariant_factors(c: Linear) -> Result<[i16; 3], Refusal>
    ensures { FactorsPromise c result }
{
    let form = diagonalise_for(c, MOST_COPIES)?;
    Ok(diagonal(form.d))
}
