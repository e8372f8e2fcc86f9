// Matrices row by row: product, sum, quotient, the third row's sign, whether all entries are finite.
ghost use Rattle.std.specs.Prelude.{◌≡◌};
ghost use Rattle.definitions.specs.Real.{mul_f, add_m};
ghost use Rattle.math_real.specs.Rows.{row_times, add_row, divide_row, divide_m};
ghost use Rattle.math_real.specs.Rows.{negate_third_row, finite_row, all_finite};

use definitions::Basis;

fn row_times(a: [f64; 3], b: Basis) -> [f64; 3]
    ensures { result ≡ row_times a b }
{
    let [a0, a1, a2] = a;
    [
        a0 * b[0][0] + a1 * b[1][0] + a2 * b[2][0],
        a0 * b[0][1] + a1 * b[1][1] + a2 * b[2][1],
        a0 * b[0][2] + a1 * b[1][2] + a2 * b[2][2],
    ]
}

// Three calls: by the array's `map`, whose closure holds b, the proof did not close; so at `divide`.
pub fn product(a: Basis, b: Basis) -> Basis
    ensures { result ≡ mul_f a b }
{
    [row_times(a[0], b), row_times(a[1], b), row_times(a[2], b)]
}

fn row_sum(a: [f64; 3], b: [f64; 3]) -> [f64; 3]
    ensures { result ≡ add_row a b }
{
    [a[0] + b[0], a[1] + b[1], a[2] + b[2]]
}

pub fn sum(a: Basis, b: Basis) -> Basis
    ensures { result ≡ add_m a b }
{
    [
        row_sum(a[0], b[0]),
        row_sum(a[1], b[1]),
        row_sum(a[2], b[2]),
    ]
}

fn divide_row(a: [f64; 3], by: f64) -> [f64; 3]
    ensures { result ≡ divide_row a by }
{
    [a[0] / by, a[1] / by, a[2] / by]
}

pub fn divide(m: Basis, by: f64) -> Basis
    ensures { result ≡ divide_m m by }
{
    [
        divide_row(m[0], by),
        divide_row(m[1], by),
        divide_row(m[2], by),
    ]
}

pub fn negate_third_row(m: Basis) -> Basis
    ensures { result ≡ negate_third_row m }
{
    [m[0], m[1], m[2].map(|x| -x)]
}

fn row_finite(a: [f64; 3]) -> bool
    ensures { result ≡ finite_row a }
{
    a.iter().all(|x| x.is_finite())
}

pub fn all_finite(m: Basis) -> bool
    ensures { result ≡ all_finite m }
{
    m.iter().all(|row| row_finite(*row))
}
