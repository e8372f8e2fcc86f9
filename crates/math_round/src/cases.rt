// The steps of rounding to a whole number, in the order of IEEE 754's text. Each takes every f64, says of those of its
// own case the whole number that they are rounded to, and leaves every other to another step.
ghost use Rattle.math_round.specs.Cases.{Special, Nearest, Tie, StepOf};

use crate::pattern::{Magnitude, measured, signed_whole};

// Special values: a zero, an infinity and a NaN stay what they are.
pub fn special(x: f64) -> Option<f64>
    ensures { StepOf (Special x) x result }
{
    match measured(x) {
        Magnitude::Special => Some(x),
        Magnitude::Whole | Magnitude::Split(_) => None,
    }
}

// Nearest: one whole number is nearer than every other, and gets the sign of x. Below and above are no branches, as a
// processor guesses every second one wrong.
pub fn nearest(x: f64) -> Option<f64>
    ensures { StepOf (Nearest x) x result }
{
    match measured(x) {
        Magnitude::Special => None,
        Magnitude::Whole => Some(x),
        Magnitude::Split(p) => {
            let below = 2 * p.rest < p.one;
            let above = p.one < 2 * p.rest;
            if below | above {
                return Some(signed_whole(p.whole + u64::from(above), p.sign));
            }
            None
        }
    }
}

// The tie: of two whole numbers as near the one away from zero, which gets the sign of x.
pub fn tie(x: f64) -> Option<f64>
    ensures { StepOf (Tie x) x result }
{
    match measured(x) {
        Magnitude::Special | Magnitude::Whole => None,
        Magnitude::Split(p) => {
            if 2 * p.rest == p.one {
                return Some(signed_whole(p.whole + 1, p.sign));
            }
            None
        }
    }
}
