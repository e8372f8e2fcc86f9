// What a float is off the whole number that it is rounded to, by sums alone where these settle it: several floats can
// then be worked on together, which `round` with its shifts does not allow.
ghost use Rattle.std.specs.Prelude.{◌≡◌};
ghost use Rattle.math_round.specs.Fraction as Fraction;

// From 2^52 to 2^53 the floats are the whole numbers.
const LEAST: f64 = 4503599627370496.0;

const MIDDLE: f64 = 6755399441055744.0;

const GREATEST: f64 = 9007199254740992.0;

fn pushed(d: f64) -> f64
    ensures { result ≡ Fraction.pushed d }
{
    (d + 0.0) + MIDDLE
}

// d less a whole number beside it.
pub fn off_whole(d: f64) -> f64
    ensures { result ≡ Fraction.off_whole d }
{
    (d + 0.0) - (pushed(d) - MIDDLE)
}

// Whether that number is the one that d is rounded to: no branch, so that three are tested at a time.
pub fn settles(d: f64) -> bool
    ensures { result ≡ Fraction.settles d }
{
    let u = pushed(d);
    let t = off_whole(d);
    let above = LEAST <= u;
    let below = u <= GREATEST;
    let more = -0.5 < t;
    let less = t < 0.5;
    above & below & more & less
}
