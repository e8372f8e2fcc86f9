// One site: its displacement under a target, the sum and the mean of these.
ghost use Rattle.std.specs.Prelude.{◌≡◌, [], ◌≤◌, ◌<◌, length, get_or, pos};
ghost use Rattle.std.specs.Float.{binary64};
ghost use Rattle.std.specs.Float.Ieee.{div};
ghost use Rattle.definitions.specs.Real.{real_of, apply_f, add_p, sub_p, map_p};
ghost use Rattle.definitions.specs.Symmetrization.{off_round};
ghost use Rattle.definitions.specs.Lent.{position_from, cells_of};

use definitions::{Basis, Cells, Position};
use math_real::position;
use math_round::fraction::{off_whole, settles};
use math_round::round;

fn off_round(d: f64) -> f64
    ensures { result ≡ off_round d }
{
    d - round(d)
}

// without whole vectors: mostly sums settle all three coordinates
fn fraction(d: Position) -> Position
    ensures { result ≡ map_p off_round d }
{
    let x = settles(d.x);
    let y = settles(d.y);
    let z = settles(d.z);
    if x & y & z {
        return Position {
            x: off_whole(d.x),
            y: off_whole(d.y),
            z: off_whole(d.z),
        };
    }
    Position {
        x: off_round(d.x),
        y: off_round(d.y),
        z: off_round(d.z),
    }
}

// how far m and the translation take q from p, without whole vectors
pub(crate) fn displacement(m: Basis, translation: Position, q: Position, p: Position) -> Position
    ensures { result ≡ map_p off_round (sub_p (add_p (apply_f m q) translation) p) }
{
    let moved = position::add(position::apply(m, q), translation);
    fraction(position::sub(moved, p))
}

pub(crate) fn position_at(s: &[Cells], i: usize) -> Position
    requires { i < length s.now }
    ensures { result ≡ position_from (get_or s.now i []) }
{
    Position::from(s[i])
}

// a sum with d added
pub(crate) fn grown(sum: Cells, d: Position) -> Cells
    ensures { result ≡ cells_of (add_p (position_from sum) d) }
{
    Cells::from(position::add(Position::from(sum), d))
}

// p with the mean added, of which the sum is given
pub(crate) fn with_mean(p: Position, sum: Cells, by: f64) -> Cells
    ensures { result ≡ cells_of (add_p p (map_p (λ s. div binary64 s by) (position_from sum))) }
{
    Cells::from(position::add(p, position::divide(Position::from(sum), by)))
}

pub(crate) fn count_of(n: usize) -> f64
    requires { n ≤ 96 }
    ensures { result ≡ real_of (pos n) }
{
    n as f64
}
