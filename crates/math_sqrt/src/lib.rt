// The square root of a float, correctly rounded, by whole numbers: half of its digits guessed and tried, the others by
// a division.
// Where the guess fails, one binary digit of the root a step.
#![tactic(auto)]

ghost use Rattle.std.specs.Prelude.{◌≡◌, ◌+◌, ◌*◌, ◌≤◌, ◌<◌, ◌^◌};
ghost use Rattle.definitions.specs.Real.{IsSqrt, root_cut, root_pattern, root_of_fields, sqrt as sqrt_f};
ghost use Rattle.math_sqrt.specs.Root.{IsRoot, Cut};

// 2^26, the least whole number of 27 digits
const LEAST: u64 = 0x0400_0000;

// 2^27, above all of 27 digits
const ABOVE: u64 = 0x0800_0000;

// 2^52: the first of a float's 53 digits, and the last bit of the exponent's field
const FIRST: u64 = 0x0010_0000_0000_0000;

// the bit of the sign
const SIGN: u64 = 0x8000_0000_0000_0000;

const INFINITY: u64 = 0x7FF0_0000_0000_0000;

// a root has a float's 53, and one more to round by
const DIGITS: u64 = 54;

// the root of the digits so far, cut, and what is left
#[derive(Clone, Copy)]
struct Root {
    q: u64,
    rem: u64,
}

// what the root is taken of: at most 54 binary digits
#[derive(Clone, Copy)]
struct Radicand {
    w: u64,

    ghost below: { w < 2 ^ 54 },
}

// the first half of the root's binary digits, 27 of them
#[derive(Clone, Copy)]
struct Half {
    s: u64,

    ghost digits: { (2 ^ 26 ≤ s) × (s < 2 ^ 27) },
}

// one more digit of the root: two more binary digits d of the number
fn root_step(a: Root, d: u64) -> Root
    requires { (a.q < 2 ^ 60) × (a.rem ≤ 2 * a.q) × (d < 4) }
    ensures root { IsRoot (4 * (a.q * a.q + a.rem) + d) result.q result.rem }
    ensures q_bound { result.q ≤ 2 * a.q + 1 }
{
    let q = a.q;
    let t = 4 * a.rem + d;
    let u = 4 * q + 1;
    if u <= t {
        return Root {
            q: 2 * q + 1,
            rem: t - u,
        };
    }
    Root { q: 2 * q, rem: t }
}

// one step of Heron's method towards the root of 2h; of the guess nothing is proved, as `root_guessed` tries it
fn heron(h: f64, a: f64) -> f64 {
    0.5 * a + h / a
}

// 27 digits of a float from 1 to 2; of any other float some 27 digits
fn first_digits(g: f64) -> Half {
    if g < 2.0 {
        return Half {
            s: LEAST + g.to_bits() % FIRST / LEAST,
        };
    }
    Half { s: ABOVE - 1 }
}

impl Half {
    // from this half, and what is left, the other 27 digits
    fn second_half(self, r: u64) -> u64
        requires { r ≤ 2 * self.s }
        ensures { Cut ((self.s * self.s + r) * 4 ^ 27) result }
    {
        let s = self.s;
        let v = r * LEAST;
        let d = v / s;
        let q = s * ABOVE + d;
        if d * d <= v % s * (2 * ABOVE) {
            return q;
        }
        q - 1
    }
}

impl Radicand {
    // a guess at the 27 digits of w's root, for a w from 2^52: a hair too high, lest the root of a square come out one
    // too low
    fn guess_half(self) -> Half {
        let h = (self.w / 2) as f64 / 4503599627370496.0;
        let a = heron(h, heron(h, 0.6862915 * (1.0 + h)));
        first_digits(heron(h * 1.0000000000004, a))
    }

    // the 54 digits of the root of w * 4^27: w's own pairs of digits, then zeros
    fn root_digits(self) -> u64
        ensures value { result ≡ root_cut 54 (self.w * 4 ^ 27) }
        ensures upper_bound { result < 2 ^ 54 }
    {
        let mut a = Root { q: 0, rem: 0 };
        let mut rest = self.w;
        for _ in 0..DIGITS {
            a = root_step(a, rest / FIRST);
            rest = rest % FIRST * 4;
        }
        a.q
    }

    // the same 54 digits, sooner where the guess is right
    fn root_guessed(self) -> u64
        ensures value { result ≡ root_cut 54 (self.w * 4 ^ 27) }
        ensures upper_bound { result < 2 ^ 54 }
    {
        let w = self.w;
        let half = self.guess_half();
        let s = half.s;
        if s * s <= w {
            let r = w - s * s;
            if r <= 2 * s {
                return half.second_half(r);
            }
        }
        self.root_digits()
    }
}

// the pattern of the root, for the significand t and the exponent's field y - 1073
fn root_pattern(t: u64, y: u64) -> u64
    requires { (t < 2 ^ 53) × (52 ≤ y) × (y ≤ 3200) }
    ensures value { result ≡ root_pattern t y }
    ensures upper_bound { result < 0x7FF0000000000000 }
{
    let radicand = Radicand { w: t * (y % 2 + 1) };
    let q = radicand.root_guessed();
    (y / 2 - 26) * FIRST + (q + 1) / 2
}

// by the two fields; the digits of a subnormal are moved up until the first stands at 2^52
fn root_of_fields(x: u64, t: u64) -> u64
    requires { (x < 2047) × (t < 2 ^ 52) × (0 < x + t) }
    ensures value { result ≡ root_of_fields x t }
    ensures upper_bound { result < 0x7FF0000000000000 }
{
    if x == 0 {
        let s = u64::from(t.leading_zeros()) - 11;
        return root_pattern(t << s, 1074 - s);
    }
    root_pattern(FIRST + t, x + 1073)
}

// IEEE 754's square root, rounded to nearest
pub fn sqrt(x: f64) -> f64
    ensures value { result ≡ sqrt_f x }
    ensures nearest { IsSqrt x result }
{
    if x.is_nan() {
        return x;
    }
    let b = x.to_bits();
    if b % SIGN == 0 {
        return x;
    }
    if SIGN <= b {
        return f64::NAN;
    }
    if INFINITY <= b {
        return x;
    }
    f64::from_bits(root_of_fields(b / FIRST, b % FIRST))
}
