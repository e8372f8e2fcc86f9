// Positions: sums, differences, a matrix times a position, remainders.
ghost use Rattle.std.specs.Prelude.{◌≡◌};
ghost use Rattle.definitions.specs.Real.{add_p, sub_p, apply_f, map_p};
ghost use Rattle.definitions.specs.Cell.{reduced};
ghost use Rattle.std.specs.Float.{binary64};
ghost use Rattle.std.specs.Float.Ieee.{div};

use definitions::{Basis, Position};

pub fn add(p: Position, q: Position) -> Position
    ensures { result ≡ add_p p q }
{
    Position {
        x: p.x + q.x,
        y: p.y + q.y,
        z: p.z + q.z,
    }
}

pub fn sub(p: Position, q: Position) -> Position
    ensures { result ≡ sub_p p q }
{
    Position {
        x: p.x - q.x,
        y: p.y - q.y,
        z: p.z - q.z,
    }
}

pub fn apply(m: Basis, p: Position) -> Position
    ensures { result ≡ apply_f m p }
{
    Position {
        x: m[0][0] * p.x + m[0][1] * p.y + m[0][2] * p.z,
        y: m[1][0] * p.x + m[1][1] * p.y + m[1][2] * p.z,
        z: m[2][0] * p.x + m[2][1] * p.y + m[2][2] * p.z,
    }
}

// A float between -1 and 1 is its own remainder: a division is spared where coordinates are reduced already. Another is
// less its whole part, of its size and then with its sign: `%` would be the C library's `fmod`.
fn modulo_one(x: f64) -> f64
    ensures { result ≡ reduced x }
{
    if x < 1.0 {
        if -1.0 < x {
            return x;
        }
        let size = -x;
        return -(size - size.trunc());
    }
    x - x.trunc()
}

// each coordinate modulo 1, with its own sign
pub fn remainder(p: Position) -> Position
    ensures { result ≡ map_p reduced p }
{
    Position {
        x: modulo_one(p.x),
        y: modulo_one(p.y),
        z: modulo_one(p.z),
    }
}

// each coordinate over `by`
pub fn divide(p: Position, by: f64) -> Position
    ensures { result ≡ map_p (λ s. div binary64 s by) p }
{
    Position {
        x: p.x / by,
        y: p.y / by,
        z: p.z / by,
    }
}
