// The rotations of the operations in the selected primitive basis, and the search among them.
ghost use Rattle.std.specs.Prelude.{◌≤◌, ◌≡◌, [], ◌∷◌, ◌++◌, map, length, drop};
ghost use Rattle.definitions.specs.Transformation.{same_row, same_matrix, transform_rotation};
ghost use Rattle.symmetrize_align.specs.Aligning.{found, last_of};

use definitions::{Integers, Linear, Rotation};
use math_matrix::{transform_by, unimodular_inverse, widened, wider};

// Three tests without a branch. No `==` of the arrays, which goes entry by entry: the search is half of the work of a job
// with many operations and few sites.
fn same_row(a: [i64; 3], b: [i64; 3]) -> bool
    ensures { result ≡ same_row (a ∷ []) (b ∷ []) 0 }
{
    (a[0] == b[0]) & (a[1] == b[1]) & (a[2] == b[2])
}

// apart from `last_place`, whose closure has a reference: there the check does not know that the rows are of three
fn same(a: Integers, b: Integers) -> bool
    ensures { result ≡ same_matrix a b }
{
    same_row(a[0], b[0]) && same_row(a[1], b[1]) && same_row(a[2], b[2])
}

// ---- lists of them

// t⁻¹ r t of each, with t⁻¹ worked out once
pub(crate) fn put_transformed(t: Linear, rotations: &[Rotation], moved: &mut [Integers])
    requires { length rotations.now ≤ length moved.old }
    ensures { moved.new
        ≡ map (transform_rotation t) rotations.now
        ++ drop (length rotations.now) moved.old }
{
    let inverse = unimodular_inverse(t);
    let by = widened(t);
    for (i, rotation) in rotations.iter().enumerate() {
        moved[i] = transform_by(inverse, by, *rotation);
    }
}

// The place of the last that is the target's. moyo's hash map keeps, of equal rotations, the one that it was given
// last.
pub(crate) fn last_place(moved: &[Integers], target: Rotation) -> Option<usize>
    ensures { result ≡ found (last_of moved.now target) }
{
    // as wide as a transformed rotation, which may have left eight bits
    let wanted: Integers = wider(target);
    moved.iter().rposition(|m| same(*m, wanted))
}
