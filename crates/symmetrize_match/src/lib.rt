// moyo's symmetrize/wyckoff.rs, its `match_wyckoff_coordinates`: the match of a position with a candidate.
#![tactic(auto)]

mod bound;
mod fit;
mod moved;
mod offsets;
mod passes;
mod trial;

ghost use Rattle.std.specs.Prelude.{◌≡◌, not, ◌||◌};
ghost use Rattle.definitions.specs.Limits.{lattice_within, position_within, good_symprec};
ghost use Rattle.definitions.specs.SiteCalls.{MatchPromise};
ghost use Rattle.data_wyckoff.specs.Spaces.{space_of};
ghost use Rattle.symmetrize_match.specs.Match.{match_real, real_space, CountedDiagonal, diagonal_of};

use bound::Tolerance;
use checks::{good_symprec, lattice_within, position_within};
use data_wyckoff::space::{Space, prepare};
use definitions::{Basis, Fit, Position, Refusal, SnfMatrix, Text};
use math_real::whole;
use trial::Trial;

// moyo's WyckoffPositionSpace, a candidate's space worked out: M, q, D's diagonal, L and R as floats, so that one
// preparation serves every position.
#[derive(Clone, Copy)]
pub struct RealSpace {
    pub matrix: Basis,
    pub shift: Position,
    pub diagonal: Position,
    pub left: Basis,
    pub right: Basis,
}

// moyo's `match_wyckoff_coordinates` of a candidate whose space is worked out already.
pub fn match_prepared(
    basis: Basis,
    symprec: f64,
    space: &RealSpace,
    position: Position,
) -> Option<Fit>
    ensures { result ≡ match_real basis symprec space.now position }
{
    let trial = Trial {
        basis,
        tolerance: Tolerance::new(symprec),
        space,
        position,
    };
    trial.matched()
}

// ---- one position against one candidate

// 4
fn bad_floats(basis: Basis, position: Position, symprec: f64) -> bool
    ensures { result ≡ (not (lattice_within basis) || not (position_within position) || not (good_symprec symprec)) }
{
    !lattice_within(basis) || !position_within(position) || !good_symprec(symprec)
}

// D's diagonal: 16 bits are few enough for a float to count.
fn diagonal_of(d: SnfMatrix) -> Position
    ensures { (result ≡ diagonal_of d) × CountedDiagonal d }
{
    Position {
        x: f64::from(d[0][0]),
        y: f64::from(d[1][1]),
        z: f64::from(d[2][2]),
    }
}

// A prepared candidate's whole numbers as floats.
impl From<&Space> for RealSpace {
    ghost from_gives = { λ space r. (r ≡ real_space (space_of space.now)) × CountedDiagonal space.now.d };

    fn from(space: &Space) -> RealSpace
        ensures { (result ≡ real_space (space_of space.now)) × CountedDiagonal space.now.d }
    {
        RealSpace {
            matrix: whole::real(space.matrix),
            shift: Position::from(space.shift),
            diagonal: diagonal_of(space.d),
            left: whole::real(space.l),
            right: whole::real(space.r),
        }
    }
}

// moyo's `match_wyckoff_coordinates`: 4, 6, 8, or the match.
pub fn match_coordinates(
    basis: Basis,
    position: Position,
    text: &Text,
    symprec: f64,
) -> Result<Option<Fit>, Refusal>
    ensures { MatchPromise basis position text.now symprec result }
{
    if bad_floats(basis, position, symprec) {
        return Err(Refusal::FloatRange);
    }
    let given = prepare(text)?;
    let space = RealSpace::from(&given);
    Ok(match_prepared(basis, symprec, &space, position))
}
