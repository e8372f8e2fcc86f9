// The candidates with their spaces as floats, worked out once a candidate: moyo works them out anew in each match.
ghost use Rattle.std.specs.Prelude.{[], ◌≤◌, ◌≡◌, length};
ghost use Rattle.symmetrize_wyckoff.specs.Given.{placed_of};
ghost use Rattle.symmetrize_wyckoff.specs.Lettering.{assign_with};
ghost use Rattle.symmetrize_wyckoff.specs.Prepared.{PutCandidates};

use crate::arguments::Placed;
use crate::find::Candidate;
use definitions::Position;
use symmetrize_match::RealSpace;

const ORIGIN: Position = Position {
    x: 0.0,
    y: 0.0,
    z: 0.0,
};

// What the table holds behind the candidates. No `Zero`: its law would name values that no proof asks for.
pub(crate) const NO_CANDIDATE: Candidate = Candidate {
    multiplicity: 0,
    letter: 0,
    space: RealSpace {
        matrix: [[0.0; 3]; 3],
        shift: ORIGIN,
        diagonal: ORIGIN,
        left: [[0.0; 3]; 3],
        right: [[0.0; 3]; 3],
    },
};

// The table is the caller's: one that is returned is copied twice.
pub(crate) fn put_candidates(placed: &Placed, out: &mut [Candidate])
    requires { (length placed.now.spaces.now ≤ length out.old)
        × (length placed.now.multiplicities.now ≡ length placed.now.spaces.now)
        × (length placed.now.letters.now ≡ length placed.now.spaces.now) }
    ensures size { length out.new ≡ length out.old }
    ensures candidates { PutCandidates (assign_with (placed_of placed.now) [] [])
        (length placed.now.spaces.now) out.new }
{
    for (k, space) in placed.spaces.iter().enumerate() {
        out[k] = Candidate {
            multiplicity: placed.multiplicities[k],
            letter: placed.letters[k],
            space: RealSpace::from(space),
        };
    }
}
