// The coordinates of a Wyckoff position (moyo's data/wyckoff.rs), from their text to a matrix and an origin.
#![tactic(auto)]

pub mod space;

ghost use Rattle.std.specs.Prelude.{◌≤◌, ◌≡◌, length, nat_abs, ◌+ℤ◌};
ghost use Rattle.definitions.specs.Real.{real_of};
ghost use Rattle.definitions.specs.SiteCalls.{CoordinatesPromise};
ghost use Rattle.data_wyckoff.specs.declared.Last.TheVariants.{Nothing};
ghost use Rattle.data_wyckoff.specs.Scan as Scan;
ghost use Rattle.data_wyckoff.specs.Scan.{Small, empty_at, axis_at, plus_axis, plus_constant};
ghost use Rattle.data_wyckoff.specs.Scan.{axis_after, digit_after, slash_after, sign_after, step_of};
ghost use Rattle.data_wyckoff.specs.Scan.{row_of, end_of, term_at};
ghost use Rattle.data_wyckoff.specs.Terms.{entries_of, ReadAs};

use definitions::{Cells, Refusal, Rotation, Text};

// What was read last of a term: nothing, a sign (true: `-`), a sign and a digit, these and a `/`, or an item.
#[derive(Clone, Copy)]
enum Last {
    Nothing,
    Sign(bool),
    Digit(bool, u8),
    Slash(bool, u8),
    Ended,
}

// A term in part: what was read last, and the sums of the items before it.
#[derive(Clone, Copy)]
struct Partial {
    last: Last,
    x: i32,
    y: i32,
    z: i32,
    constant: f64,
}

// A whole term: its sums, and the place of the comma or the end behind it.
#[derive(Clone, Copy)]
struct Row {
    end: usize,
    x: i32,
    y: i32,
    z: i32,
    constant: f64,
}

// ---- numbers

fn signed(minus: bool, k: u8) -> i32
    ensures { (result ≡ Scan.signed minus k) × (nat_abs result ≤ 255) }
{
    let n = i32::from(k);
    if minus { -n } else { n }
}

fn real(minus: bool, k: u8) -> f64
    ensures { result ≡ real_of (Scan.signed minus k) }
{
    f64::from(signed(minus, k))
}

// 576 is 64 bytes of 9 each: a running sum may leave the range of the last one
fn sum(a: i32, n: i32) -> i32
    requires { (nat_abs a ≤ 576) × (nat_abs n ≤ 255) }
    ensures { result ≡ a +ℤ n }
{
    a + n
}

// a coefficient, in range
fn kept(e: i32) -> Option<i8>
    ensures { result ≡ Scan.kept e }
{
    if (-31..=31).contains(&e) {
        Some(e as i8)
    } else {
        None
    }
}

// ---- a term in part

impl Partial {
    // no item so far
    fn empty() -> Partial
        ensures { result ≡ empty_at Nothing }
    {
        Partial {
            last: Last::Nothing,
            x: 0,
            y: 0,
            z: 0,
            constant: 0.0,
        }
    }

    // the same sums
    fn behind(self, last: Last) -> Partial
        ensures { result ≡ Scan.behind last self }
    {
        Partial { last, ..self }
    }

    fn plus_constant(self, last: Last, c: f64) -> Partial
        ensures { result ≡ plus_constant last c self }
    {
        Partial {
            last,
            constant: self.constant + c,
            ..self
        }
    }

    // n times the axis of the byte b. `Small` is no field of the type: each byte adds up to 9 to what it bounds.
    fn plus_axis(self, b: u8, n: i32) -> Partial
        requires { (nat_abs n ≤ 255) × (Small 576 self) }
        ensures { result ≡ plus_axis (axis_at b) n self }
    {
        let t = self.behind(Last::Ended);
        match b {
            b'x' => Partial {
                x: sum(t.x, n),
                ..t
            },
            b'y' => Partial {
                y: sum(t.y, n),
                ..t
            },
            _ => Partial {
                z: sum(t.z, n),
                ..t
            },
        }
    }

    // ---- a byte more, where a term may go on so

    fn on_axis(self, b: u8) -> Option<Partial>
        requires { Small 576 self }
        ensures { result ≡ axis_after self.last (axis_at b) self }
    {
        match self.last {
            Last::Nothing => Some(self.plus_axis(b, 1)),
            Last::Sign(minus) => Some(self.plus_axis(b, signed(minus, 1))),
            Last::Digit(minus, n) => Some(self.plus_axis(b, signed(minus, n))),
            Last::Slash(_, _) | Last::Ended => None,
        }
    }

    // A denominator is not 0.
    fn on_digit(self, k: u8) -> Option<Partial>
        ensures { result ≡ digit_after self.last k self }
    {
        match self.last {
            Last::Nothing => Some(self.behind(Last::Digit(false, k))),
            Last::Sign(minus) => Some(self.behind(Last::Digit(minus, k))),
            Last::Slash(minus, n) if k != 0 => {
                Some(self.plus_constant(Last::Ended, real(minus, n) / real(false, k)))
            }
            Last::Digit(_, _) | Last::Slash(_, _) | Last::Ended => None,
        }
    }

    fn on_slash(self) -> Option<Partial>
        ensures { result ≡ slash_after self.last self }
    {
        match self.last {
            Last::Digit(minus, n) => Some(self.behind(Last::Slash(minus, n))),
            Last::Nothing | Last::Sign(_) | Last::Slash(_, _) | Last::Ended => None,
        }
    }

    // A `+` is not first.
    fn on_sign(self, minus: bool) -> Option<Partial>
        ensures { result ≡ sign_after self.last minus self }
    {
        match self.last {
            Last::Nothing if minus => Some(self.behind(Last::Sign(true))),
            Last::Digit(m, n) => Some(self.plus_constant(Last::Sign(minus), real(m, n))),
            Last::Ended => Some(self.behind(Last::Sign(minus))),
            Last::Nothing | Last::Sign(_) | Last::Slash(_, _) => None,
        }
    }

    // a byte that is no space and no comma
    fn step(self, b: u8) -> Option<Partial>
        requires { Small 576 self }
        ensures { result ≡ step_of self b }
    {
        match b {
            b'+' => self.on_sign(false),
            b'-' => self.on_sign(true),
            b'/' => self.on_slash(),
            b'0'..=b'9' => self.on_digit(b - b'0'),
            b'x'..=b'z' => self.on_axis(b),
            _ => None,
        }
    }

    // ---- its end

    fn row(self, end: usize) -> Row
        ensures { result ≡ row_of self end }
    {
        Row {
            end,
            x: self.x,
            y: self.y,
            z: self.z,
            constant: self.constant,
        }
    }

    fn ended(self, end: usize) -> Option<Row>
        ensures { result ≡ end_of self end }
    {
        match self.last {
            Last::Digit(minus, n) => Some(self.plus_constant(Last::Ended, real(minus, n)).row(end)),
            Last::Ended => Some(self.row(end)),
            Last::Nothing | Last::Sign(_) | Last::Slash(_, _) => None,
        }
    }
}

impl Row {
    fn entries(self) -> Option<[i8; 3]>
        ensures { result ≡ entries_of self }
    {
        Some([kept(self.x)?, kept(self.y)?, kept(self.z)?])
    }
}

// ---- a text

// The term that begins at a place and ends at a comma or the end; spaces are left out.
fn read_term(text: &[u8], from: usize) -> Option<Row>
    requires { length text.now ≤ 64 }
    ensures { result ≡ term_at text.now from }
{
    let mut t = Partial::empty();
    for i in from..text.len() {
        match text[i] {
            b' ' => {}
            b',' => return t.ended(i),
            b => t = t.step(b)?,
        }
    }
    t.ended(text.len())
}

// Three terms, and no comma behind the third. By value: of an array behind a reference no proof knows the length.
fn read_terms(text: Text) -> Option<(Rotation, Cells)>
    ensures { ReadAs text result }
{
    let a = read_term(&text, 0)?;
    let b = read_term(&text, a.end + 1)?;
    let c = read_term(&text, b.end + 1)?;
    let end = text.len();
    if c.end != end {
        return None;
    }
    let rows = [a.entries()?, b.entries()?, c.entries()?];
    Some((rows, [a.constant, b.constant, c.constant]))
}

// moyo's `WyckoffPositionSpace::new` reads such a string; its Rust is not at hand, so document 01's grammar decides.
pub fn read_coordinates(text: &Text) -> Result<(Rotation, Cells), Refusal>
    ensures { CoordinatesPromise text.now result }
{
    read_terms(*text).ok_or(Refusal::Coordinates)
}
