// moyo's data/centering.rs: the matrix of each centring, from the primitive to the conventional cell.
#![tactic(auto)]

ghost use Rattle.std.specs.Prelude.{◌≡◌};
ghost use Rattle.definitions.specs.Centering.{linear as linear_of};

use definitions::{Centering, Linear};

const P: Linear = [[1, 0, 0], [0, 1, 0], [0, 0, 1]];

const A: Linear = [[1, 0, 0], [0, 1, 1], [0, -1, 1]];

const B: Linear = [[1, 0, -1], [0, 1, 0], [1, 0, 1]];

const C: Linear = [[1, -1, 0], [1, 1, 0], [0, 0, 1]];

const I: Linear = [[0, 1, 1], [1, 0, 1], [1, 1, 0]];

const R: Linear = [[1, 0, 1], [-1, 1, 1], [0, -1, 1]];

const F: Linear = [[-1, 1, 1], [1, -1, 1], [1, 1, -1]];

#[tactic(auto, unfolding(definitions::specs::Centering::linear))]
pub fn linear(centering: Centering) -> Linear
    ensures { result ≡ linear_of centering }
{
    match centering {
        Centering::P => P,
        Centering::A => A,
        Centering::B => B,
        Centering::C => C,
        Centering::I => I,
        Centering::R => R,
        Centering::F => F,
    }
}
