// Positions in the selected primitive basis.
ghost use Rattle.std.specs.Prelude.{◌≡◌, ◌++◌, ◌≤◌, length, drop};
ghost use Rattle.definitions.specs.Matrix as Matrix;
ghost use Rattle.definitions.specs.Real.{real, apply_f, sub_p};
ghost use Rattle.symmetrize_positions.specs.Targets.{moved};

use definitions::{Basis, Cells, Linear, Position};
use math_matrix::{inverse, widened};
use math_real::{position, whole};

// the inverse, exact in whole numbers, as floats
pub(crate) fn real_inverse(t: Linear) -> Basis
    ensures { result ≡ real (Matrix.inverse t) }
{
    whole::real(inverse(widened(t)))
}

// m times p - shift
fn transformed(m: Basis, shift: Position, p: Position) -> Position
    ensures { result ≡ apply_f m (sub_p p shift) }
{
    position::apply(m, position::sub(p, shift))
}

pub(crate) fn put_transformed(m: Basis, shift: Position, positions: &[Cells], held: &mut [Cells])
    requires { length positions.now ≤ length held.old }
    ensures { held.new
        ≡ moved m shift positions.now ++ drop (length positions.now) held.old }
{
    for (i, p) in positions.iter().enumerate() {
        let moved = transformed(m, shift, Position::from(*p));
        held[i] = Cells::from(moved);
    }
}
