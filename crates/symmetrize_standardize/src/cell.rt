// The conventional cell: the symmetrised positions of the primitive sites, and their copies.
ghost use Rattle.std.specs.Prelude.{◌≤◌, ◌≡◌, length};
ghost use Rattle.definitions.specs.Calls.{PointsPromise};
ghost use Rattle.definitions.specs.Limits as Limits;
ghost use Rattle.definitions.specs.Refusal.{Verdict};
ghost use Rattle.math_matrix.specs.Laws.{Three};
ghost use Rattle.base_transformation.specs.Runs.{held, SameRooms, SameLists};
ghost use Rattle.symmetrize_standardize.specs.Given.{given_by};
ghost use Rattle.symmetrize_standardize.specs.Stages.{CellListed};

use crate::Job;
use base_transformation::cell::{Listing, PrimitiveSites, list_copies};
use base_transformation::lattice_points;
use checks::copies;
use definitions::limits::MOST_COPIES;
use definitions::{Cells, Linear, Point};
use lent::Zero;
use symmetrize_positions::{GivenPositions, GivenTargets, symmetrize_positions};

// C's points in a list, and how many there are: of its own, since that C is three rows of three is read off the type of
// what comes by value.
fn put_points(c: Linear, out: &mut [Point]) -> usize
    ensures shape { Three c }
    ensures count { result ≡ Limits.copies c }
    ensures points { (v : Verdict) × PointsPromise c out.old out.new v }
{
    let _ = lattice_points(c, out);
    copies(c)
}

// Past the refusals of the whole call neither call refuses: what they tell is not looked at.
pub(crate) fn list_cell(job: &Job, aligned: &[u8], primitive: &mut [Cells], listing: &mut Listing)
    requires { (Limits.copies job.now.c ≤ 64) × (length job.now.positions.now ≤ length primitive.old) }
    ensures listed { CellListed (given_by job.now) aligned.now primitive.old primitive.new
        (held listing.old) (held listing.new) }
    ensures rooms { SameRooms (held listing.old) (held listing.new) }
    ensures same_lists { SameLists listing.old listing.new }
{
    let given = GivenPositions {
        t: job.t,
        shift: job.shift,
        positions: job.positions,
        targets: GivenTargets {
            rotations: job.rotations_of_targets,
            translations: job.translations_of_targets,
            images: aligned,
        },
    };
    let _ = symmetrize_positions(&given, primitive);
    let mut points = [Point::ZERO; MOST_COPIES];
    let m = put_points(job.c, &mut points);
    let sites = PrimitiveSites {
        elements: job.elements,
        positions: &primitive[..job.positions.len()],
    };
    list_copies(job.c, &points[..m], &sites, listing);
}
