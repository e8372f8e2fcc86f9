// Rounding to a whole number, half away from zero, over every f64: IEEE 754's roundToIntegralTiesToAway, in the order
// of its text: special values, nearest, then the tie.
#![tactic(auto)]

pub mod cases;
pub mod fraction;
mod pattern;

ghost use Rattle.std.specs.Prelude.{◌≡◌};
ghost use Rattle.definitions.specs.Real.{round_away, IsRound};

use crate::cases::{nearest, special, tie};

// Each float is in one of the three cases, so one of the steps settles it.
pub fn round(x: f64) -> f64
    ensures value { result ≡ round_away x }
    ensures nearest { IsRound x result }
{
    special(x)
        .or_else(|| nearest(x))
        .or_else(|| tie(x))
        .unwrap()
}
