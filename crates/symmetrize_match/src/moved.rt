// M·y of each of several offsets, by passes, the same for the inner and the outer ones.
ghost use Rattle.std.specs.Prelude.{◌≡◌};
ghost use Rattle.definitions.specs.Real.{origin, apply_f};
ghost use Rattle.symmetrize_match.specs.Match.{zero_diagonal, moved_real, cell, Columns};

use crate::offsets::Axes;
use crate::passes::Row;
use crate::{RealSpace, passes};
use definitions::Position;
use math_real::position;

fn is_zero(d: Position) -> bool
    ensures { result ≡ zero_diagonal d }
{
    d.x == 0.0 && d.y == 0.0 && d.z == 0.0
}

// M R of 0: every offset's, where D is zero
fn moved_origin(space: &RealSpace) -> Position
    ensures { result ≡ apply_f space.now.matrix (apply_f space.now.right origin) }
{
    let origin = Position {
        x: 0.0,
        y: 0.0,
        z: 0.0,
    };
    position::apply(space.matrix, position::apply(space.right, origin))
}

// M R D⁻¹ L ((o + p) - q) of each offset: where D is zero, one for all. `out` lends its room, zeroed.
pub(crate) fn put_moved<const N: usize>(
    space: &RealSpace,
    p: Position,
    offsets: &Axes<N>,
    out: &mut Axes<N>,
)
    requires { Columns N (λ i. origin) out.old.x out.old.y out.old.z }
    ensures { Columns N
        (λ i. moved_real space.now (cell offsets.now.x offsets.now.y offsets.now.z i) p)
        out.new.x out.new.y out.new.z }
{
    if is_zero(space.diagonal) {
        let m = moved_origin(space);
        *out = Axes {
            x: [m.x; N],
            y: [m.y; N],
            z: [m.z; N],
        };
        return;
    }
    let d = space.diagonal;
    let shift = space.shift;
    let row = Row {
        d: d.x,
        left: space.left[0],
    };
    passes::divide_row(row, shift, p, offsets, &mut out.x);
    let row = Row {
        d: d.y,
        left: space.left[1],
    };
    passes::divide_row(row, shift, p, offsets, &mut out.y);
    let row = Row {
        d: d.z,
        left: space.left[2],
    };
    passes::divide_row(row, shift, p, offsets, &mut out.z);
    passes::apply_all(space.right, out);
    passes::apply_all(space.matrix, out);
}
