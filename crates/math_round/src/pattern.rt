// A float by the fields of its bit pattern.
ghost use Rattle.std.specs.Prelude.{◌≡◌, ◌-◌, ◌^◌, ◌≤◌, ◌<◌};
ghost use Rattle.std.specs.Float.Ieee as Ieee;
ghost use Rattle.std.specs.Float.{binary64};
ghost use Rattle.math_round.specs.Pattern.{field_of, parts_of, Measures};

// the bit of the sign
const SIGN: u64 = 0x8000000000000000;

// the last bit of the exponent's field; of a normal number also its first digit, which is not stored
const FIRST: u64 = 0x0010000000000000;

const INFINITY: u64 = 0x7FF0000000000000;

// from this field on a float is a whole number
const WHOLE: u64 = 1075;

// a sign, true for minus, and a magnitude: whole + rest / one
#[derive(Clone, Copy)]
pub(crate) struct Parts {
    pub(crate) sign: bool,
    pub(crate) whole: u64,
    pub(crate) rest: u64,
    pub(crate) one: u64,
}

// A float as rounding reads it: a zero or not finite; a whole number; or by its parts.
#[derive(Clone, Copy)]
pub(crate) enum Magnitude {
    Special,
    Whole,
    Split(Parts),
}

fn field(bits: u64) -> u64
    ensures { result ≡ field_of bits }
{
    bits % SIGN / FIRST
}

// The binary places of a float of this field, or 54, which is past all digits.
// A product and no branch: whether a float is near zero is what a processor guesses wrong.
fn places(field: u64) -> u64
    requires { field < 1075 }
    ensures { result ≡ 54 - (field - 1021) }
{
    let t = field + 3;
    54 - t % 1024 * (t / 1024)
}

// The magnitude of a float that has binary places. Below the field 1021, where it is less than a quarter, the digits
// with 54 places stand for it: they are less than a half, and that is all that matters.
fn split(bits: u64) -> Parts
    requires { field_of bits < 1075 }
    ensures { result ≡ parts_of bits }
{
    let digits = FIRST + bits % FIRST;
    let p = places(field(bits));
    let one = 1 << p;
    Parts {
        sign: SIGN <= bits,
        whole: digits >> p,
        rest: digits % one,
        one,
    }
}

pub(crate) fn measured(x: f64) -> Magnitude
    ensures { Measures x result }
{
    if x.is_nan() {
        return Magnitude::Special;
    }
    let bits = x.to_bits();
    // the pattern without the sign is ordered as magnitudes are
    let size = bits % SIGN;
    if size == 0 {
        return Magnitude::Special;
    }
    if INFINITY <= size {
        return Magnitude::Special;
    }
    if WHOLE <= field(bits) {
        return Magnitude::Whole;
    }
    Magnitude::Split(split(bits))
}

// A whole number as a float, with a sign: also -0. The sign's bit is added, as a processor guesses wrong at every
// second sign; and through an i64, which it converts in one step.
pub(crate) fn signed_whole(n: u64, minus: bool) -> f64
    requires { n ≤ 2 ^ 53 }
    ensures { result ≡ Ieee.round binary64 minus n 1 }
{
    let size = (n as i64) as f64;
    f64::from_bits(size.to_bits() + u64::from(minus) * SIGN)
}
