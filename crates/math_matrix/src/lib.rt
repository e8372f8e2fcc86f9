// Matrices, three rows of three: columns, wider entries, and of whole numbers the determinant, adjugate, inverse and a
// change of basis. Entries have 16 bits, cofactors 32 and sums 64, so that the types keep every number in range.
#![tactic(auto)]

ghost use Rattle.std.specs.Prelude.{◌≡◌, ℕ, ◌≤◌, [], get_or, nat_abs, ◌*ℤ◌};
ghost use Rattle.std.specs.List.{AllZip};
ghost use Rattle.definitions.specs.Matrix.{item, three, minor, unit, mul_m};
ghost use Rattle.definitions.specs.Matrix.{det as det_of, adjugate as adjugate_of};
ghost use Rattle.definitions.specs.Matrix.{inverse as inverse_of, apply as apply_of};
ghost use Rattle.math_matrix.specs.Entries.{transposed_by};
ghost use Rattle.math_matrix.specs.Rows.{cross_of, dot_of};

use definitions::{Cofactors, Integers, Linear, Point, Rotation, SnfMatrix};

// Entry by entry, in `wider` row by row: arrays' `map` requires that three of S fit in memory, which of any S is not
// known, and gets no proof of a function, as `T::from`, whose result names a type that its argument does not.
fn wider_row<S, T: From<S>>(x: [S; 3]) -> [T; 3]
    ensures { AllZip T.from_gives x result }
{
    let [a, b, c] = x;
    [T::from(a), T::from(b), T::from(c)]
}

// Each entry as a number of a wider type.
pub fn wider<S, T: From<S>>(m: [[S; 3]; 3]) -> [[T; 3]; 3]
    ensures { AllZip (AllZip T.from_gives) m result }
{
    let [p, q, r] = m;
    [wider_row(p), wider_row(q), wider_row(r)]
}

pub fn widened(m: Rotation) -> SnfMatrix
    ensures { result ≡ m }
{
    wider(m)
}

// The columns of m.
pub fn transposed<T: Copy>(m: [[T; 3]; 3]) -> [[T; 3]; 3]
    ensures { (z : T) → result ≡ transposed_by z m }
{
    let [p, q, r] = m;
    [[p[0], q[0], r[0]], [p[1], q[1], r[1]], [p[2], q[2], r[2]]]
}

// ---- minors

// `product` and `term` stay two: each is safe by its own widths, and a trait over the widths is longer than both.
fn product(a: i16, b: i16) -> i32
    ensures { result ≡ a *ℤ b }
{
    i32::from(a) * i32::from(b)
}

// of the rows (a, b) and (c, d): entries of 16 bits give one of 32
fn minor_of(a: i16, b: i16, c: i16, d: i16) -> i32
    ensures { result ≡ minor a b c d }
{
    product(a, d) - product(b, c)
}

// The minors of the columns a and b, their vector product: row i of the adjugate where they are those that follow i.
fn cross(a: [i16; 3], b: [i16; 3]) -> [i32; 3]
    ensures { result ≡ cross_of a b }
{
    let x = minor_of(a[1], b[1], a[2], b[2]);
    let y = minor_of(a[2], b[2], a[0], b[0]);
    let z = minor_of(a[0], b[0], a[1], b[1]);
    [x, y, z]
}

pub fn adjugate(m: SnfMatrix) -> Cofactors
    ensures { result ≡ adjugate_of m }
{
    let [a, b, c] = transposed(m);
    [cross(b, c), cross(c, a), cross(a, b)]
}

// ---- sums of products

fn term(x: i32, a: i16) -> i64
    ensures { result ≡ x *ℤ a }
{
    i64::from(x) * i64::from(a)
}

fn row_dot(x: [i32; 3], a: [i16; 3]) -> i64
    ensures { result ≡ dot_of x a }
{
    term(x[0], a[0]) + term(x[1], a[1]) + term(x[2], a[2])
}

// Row by row: of `map` with a closure that holds f, the proof did not close.
pub fn apply(m: Cofactors, f: [i16; 3]) -> Point
    ensures { result ≡ apply_of m f }
{
    let [a, b, c] = m;
    [row_dot(a, f), row_dot(b, f), row_dot(c, f)]
}

pub fn determinant(m: SnfMatrix) -> i64
    ensures { result ≡ det_of m }
{
    let [a, b, c] = transposed(m);
    row_dot(cross(b, c), a)
}

// ---- the inverse

// the minors, k times, where k is 1 or -1; else zero
fn signed_cross(k: i64, a: [i16; 3], b: [i16; 3]) -> [i32; 3]
    ensures { result ≡ three (λ i. unit k *ℤ item (cross_of a b) i) }
{
    match k {
        1 => cross(a, b),
        -1 => cross(b, a),
        _ => [0; 3],
    }
}

pub fn inverse(m: SnfMatrix) -> Cofactors
    ensures { result ≡ inverse_of m }
{
    let k = determinant(m);
    let [a, b, c] = transposed(m);
    [
        signed_cross(k, b, c),
        signed_cross(k, c, a),
        signed_cross(k, a, b),
    ]
}

// ---- another basis

// `narrow_row` and `short_row` stay two: `as` has no generic form, and `TryFrom` has an error that cannot come here.
fn narrow_row(x: [i64; 3]) -> [i32; 3]
    requires { (j : ℕ) → nat_abs (item x j) ≤ 2147483647 }
    ensures { result ≡ three (item x) }
{
    let [a, b, c] = x;
    [a as i32, b as i32, c as i32]
}

fn short_row(x: [i32; 3]) -> [i16; 3]
    requires { (j : ℕ) → nat_abs (item x j) ≤ 32767 }
    ensures { result ≡ three (item x) }
{
    let [a, b, c] = x;
    [a as i16, b as i16, c as i16]
}

// A row times the matrix of these columns; column by column and not by `map`, as in `apply`.
fn row_times(x: [i32; 3], columns: SnfMatrix) -> [i64; 3]
    ensures { result ≡ three (λ j. dot_of x (get_or columns j [])) }
{
    let [a, b, c] = columns;
    [row_dot(x, a), row_dot(x, b), row_dot(x, c)]
}

// Row by row and not by `map`, as in `apply`.
fn times(a: Cofactors, b: SnfMatrix) -> Integers
    ensures { result ≡ mul_m a b }
{
    let columns = transposed(b);
    let [p, q, r] = a;
    [
        row_times(p, columns),
        row_times(q, columns),
        row_times(r, columns),
    ]
}

// The inverse where t is unimodular: a minor of numbers of 8 bits has 16.
pub fn unimodular_inverse(t: Linear) -> SnfMatrix
    ensures { result ≡ inverse_of t }
{
    // row by row: of `map` with `short_row`, which requires small entries, the proof did not close
    let [a, b, c] = inverse(widened(t));
    let r0 = short_row(a);
    let r1 = short_row(b);
    let r2 = short_row(c);
    [r0, r1, r2]
}

// i r t: for an i that is worked out once and many rotations
pub fn transform_by(i: SnfMatrix, t: SnfMatrix, r: Rotation) -> Integers
    ensures { result ≡ mul_m (mul_m i r) t }
{
    // 16 bits times 8 are small enough to be narrowed; row by row, as above
    let [a, b, c] = times(wider(i), widened(r));
    let r0 = narrow_row(a);
    let r1 = narrow_row(b);
    let r2 = narrow_row(c);
    times([r0, r1, r2], t)
}

// t⁻¹ r t (moyo's `UnimodularTransformation::transform_operation`)
pub fn transform(t: Linear, r: Rotation) -> Integers
    ensures { result ≡ mul_m (mul_m (inverse_of t) r) t }
{
    transform_by(unimodular_inverse(t), widened(t), r)
}
