// Which square of a distance has a root below symprec, without a root where a comparison decides.
ghost use Rattle.std.specs.Prelude.{◌≡◌, ◌+◌, ◌<◌, [], ◌∷◌, length};
ghost use Rattle.symmetrize_match.specs.Match.{IsBound, first_near};

use definitions::Fit;
use math_sqrt::sqrt;

// symprec with a bound for its squares: one a match, for all of its offsets.
#[derive(Clone, Copy)]
pub(crate) struct Tolerance {
    pub(crate) symprec: f64,
    bound: f64,
    ghost is_bound: { IsBound symprec bound },
}

// A bound for symprec: tried, and where it fails infinity is one.
fn bound(symprec: f64) -> f64
    ensures { IsBound symprec result }
{
    let b = symprec * symprec * 1.000000000000001;
    if 0.0 <= b && !(sqrt(b) < symprec) {
        b
    } else {
        f64::INFINITY
    }
}

impl Tolerance {
    pub(crate) fn new(symprec: f64) -> Self
        ensures { result.symprec ≡ symprec }
    {
        Tolerance {
            symprec,
            bound: bound(symprec),
        }
    }

    // The offset at a place, by its square: a root only below the bound.
    pub(crate) fn near(self, square: f64, place: usize) -> Option<Fit>
        ensures { result ≡ first_near self.symprec place (square ∷ []) }
    {
        if self.bound <= square {
            return None;
        }
        let distance = sqrt(square);
        if distance < self.symprec {
            return Some(Fit { place, distance });
        }
        None
    }

    // The first of the squares that is near, their places counted from `from`.
    pub(crate) fn first_near(self, squares: &[f64], from: usize) -> Option<Fit>
        requires { from + length squares.now < 1000 }
        ensures { result ≡ first_near self.symprec from squares.now }
    {
        for (i, square) in squares.iter().enumerate() {
            if let Some(fit) = self.near(*square, from + i) {
                return Some(fit);
            }
        }
        None
    }
}
