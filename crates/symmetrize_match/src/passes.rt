// The formula over several offsets, step by step: each step runs over all of them, and the compiler takes two at once.
ghost use Rattle.std.specs.Prelude.{◌≡◌};
ghost use Rattle.definitions.specs.Real.{zero_f, apply_f, add_p, sub_p};
ghost use Rattle.symmetrize_match.specs.Match.{Column, Columns, cell, row_times, quotient_real, square};

use crate::fit;
use crate::offsets::Axes;
use definitions::{Basis, Position};
use math_real::position;

fn row_times(row: [f64; 3], p: Position) -> f64
    ensures { result ≡ row_times row p }
{
    row[0] * p.x + row[1] * p.y + row[2] * p.z
}

// A row of L with the entry of D that divides it.
#[derive(Clone, Copy)]
pub(crate) struct Row {
    pub(crate) d: f64,
    pub(crate) left: [f64; 3],
}

// A row of D⁻¹ L ((o + p) - q). Where d is 0 the row is, and was.
pub(crate) fn divide_row<const N: usize>(
    row: Row,
    shift: Position,
    p: Position,
    offsets: &Axes<N>,
    out: &mut [f64; N],
)
    requires { Column N (λ i. zero_f) out.old }
    ensures { Column N
        (λ i. quotient_real row.d
        (row_times row.left (sub_p (add_p (cell offsets.now.x offsets.now.y offsets.now.z i) p) shift)))
        out.new }
{
    if row.d == 0.0f64 {
        return;
    }
    for i in 0..N {
        let t = position::sub(position::add(offsets.at(i), p), shift);
        out[i] = row_times(row.left, t) / row.d;
    }
}

// Each position times m.
pub(crate) fn apply_all<const N: usize>(m: Basis, out: &mut Axes<N>)
    ensures { Columns N
        (λ i. apply_f m (cell out.old.x out.old.y out.old.z i))
        out.new.x out.new.y out.new.z }
{
    for i in 0..N {
        let w = position::apply(m, out.at(i));
        out.x[i] = w.x;
        out.y[i] = w.y;
        out.z[i] = w.z;
    }
}

// The squares of the distances, from M·y of each offset, in the place of its first coordinate.
pub(crate) fn put_squares<const N: usize>(
    basis: Basis,
    shift: Position,
    p: Position,
    offsets: &Axes<N>,
    moved: &mut Axes<N>,
)
    ensures { Column N
        (λ i. square
        (apply_f basis
        (sub_p (sub_p (add_p (cell moved.old.x moved.old.y moved.old.z i) shift) p)
        (cell offsets.now.x offsets.now.y offsets.now.z i))))
        moved.new.x }
{
    for i in 0..N {
        let m = moved.at(i);
        let o = offsets.at(i);
        moved.x[i] = fit::square_of(basis, fit::residual(m, shift, p, o));
    }
}
